// One result for each public function: the law in specs/Law, applied for each function in the files beside it.
#![tactic(auto)]
