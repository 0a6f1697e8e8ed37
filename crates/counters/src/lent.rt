// Rules over a record that the caller lends, in 01's form (Forms and where they belong): "REC/TEC record first by
// value; then a few thin functions take it by &mut and call the covered rule." The work and its statement are in the
// rule by value.
ghost use Rattle.std.specs.Prelude.{◌≡◌};
ghost use Rattle.counters.specs.Rules.{receive_error, good_frame, transmit_error, completed};

use crate::Counters;

pub fn receive_error(c: &mut Counters)
    ensures { c.new ≡ receive_error c.old }
{
    *c = c.receive_error();
}

pub fn good_frame(c: &mut Counters)
    ensures { c.new ≡ good_frame c.old }
{
    *c = c.good_frame();
}

pub fn transmit_error(c: &mut Counters)
    ensures { c.new ≡ transmit_error c.old }
{
    *c = c.transmit_error();
}

pub fn completed(c: &mut Counters)
    ensures { c.new ≡ completed c.old }
{
    *c = c.completed();
}
