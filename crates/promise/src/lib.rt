// What holds over every sequence of transfers and events: the promises in specs/, their proofs in proofs/.
#![tactic(auto)]
