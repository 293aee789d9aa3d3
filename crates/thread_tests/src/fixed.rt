ghost use Rattle.std.specs.Prelude.{◌≡◌};

use back_answers::Answer;
use gate_workers::Uplink;

/// An uplink that gives one answer.
#[derive(Drop)]
pub struct Fixed {
    pub answer: Answer,
}

impl Uplink for Fixed {
    type Pass = ();

    ghost sends = { λ u bytes answer w. answer ≡ u.answer };

    fn send(&mut self, _pass: (), _bytes: &[u8]) -> Answer {
        self.answer
    }
}
