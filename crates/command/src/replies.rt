// The line of each reply. Document 01, "Program lots".
ghost use Rattle.std.specs.Prelude.{◌≡◌};
ghost use Rattle.commandmodel.specs.Printed.{refusal, reply_printed};

use crate::printing::{Reply, reply_line};
use plan::{Answer, Refusal};
use sheet::{Shown, Totals};

// What a granted call gives, and its line.
pub trait Granted {
    ghost use Rattle.std.specs.Prelude.{ℕ, List};

    ghost line: { Self → List ℕ };

    fn put_line(self, reply: &mut Reply)
        ensures { reply.new.items ≡ line self };
}

impl Granted for () {
    ghost use Rattle.commandmodel.specs.Printed.{done_line};

    ghost line = { done_line };

    fn put_line(self, reply: &mut Reply) {
        reply_line(reply, b"ok", &[])
    }
}

impl Granted for Shown {
    ghost use Rattle.commandmodel.specs.Printed.{look_line};

    ghost line = { look_line };

    fn put_line(self, reply: &mut Reply) {
        let numbers = [self.units, self.good, self.marginal, self.bad, self.blanks];
        match self.answer {
            Answer::GoOn => reply_line(reply, b"undecided", &numbers),
            Answer::Accept => reply_line(reply, b"accepted", &numbers),
            Answer::Reject => reply_line(reply, b"rejected", &numbers),
        }
    }
}

impl Granted for Totals {
    ghost use Rattle.commandmodel.specs.Printed.{tally_line};

    ghost line = { tally_line };

    fn put_line(self, reply: &mut Reply) {
        let numbers = [
            self.accepted,
            self.rejected,
            self.good,
            self.marginal,
            self.bad,
        ];
        reply_line(reply, b"tally", &numbers)
    }
}

pub fn refused(reason: Refusal, reply: &mut Reply)
    ensures { reply.new.items ≡ refusal reason }
{
    reply_line(reply, b"no", &[reason.number()])
}

pub fn printed<T: Granted>(answer: Result<T, Refusal>, reply: &mut Reply)
    ensures { reply.new.items ≡ reply_printed T.line answer }
{
    match answer {
        Ok(granted) => granted.put_line(reply),
        Err(reason) => refused(reason, reply),
    }
}
