// The answers of the calls, told in numbers.
use crate::values::Told;
use numbers::refusal::Refusal;
use rows::live::Live;

// A refusal's number, with zeros beside it.
impl From<Refusal> for Told {
    ghost use Rattle.std.specs.Prelude.{◌≡◌};
    ghost use Rattle.numbers.specs.Prelude.{refusal_number};
    ghost use Rattle.batch_rules.specs.Asked.{number};

    ghost from_gives = { λ refusal told. told ≡ number (refusal_number refusal) };

    fn from(refusal: Refusal) -> Told {
        Told {
            answer: refusal.number(),
            ..Told::default()
        }
    }
}

impl From<Result<Live, Refusal>> for Told {
    ghost use Rattle.std.specs.Prelude.{◌≡◌};
    ghost use Rattle.batch_rules.specs.Asked.{grant_as_told};

    ghost from_gives = { λ answer told. told ≡ grant_as_told answer };

    fn from(answer: Result<Live, Refusal>) -> Told {
        match answer {
            Ok(l) => Told {
                answer: 0,
                row: l.row,
                generation: l.generation,
                x0: l.x0,
                y0: l.y0,
                x1: l.x1,
                y1: l.y1,
            },
            Err(refusal) => Told::from(refusal),
        }
    }
}

impl From<Result<(), Refusal>> for Told {
    ghost use Rattle.std.specs.Prelude.{◌≡◌};
    ghost use Rattle.batch_rules.specs.Asked.{reply_as_told};

    ghost from_gives = { λ answer told. told ≡ reply_as_told answer };

    fn from(answer: Result<(), Refusal>) -> Told {
        match answer {
            Ok(()) => Told::default(),
            Err(refusal) => Told::from(refusal),
        }
    }
}
