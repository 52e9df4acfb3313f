// The word that begins a command.
ghost use Rattle.std.specs.Prelude.{◌≡◌};
ghost use Rattle.std.specs.Option.{ok_or};
ghost use Rattle.script.specs.Verbs.{verb_of};

use crate::faults::Expected;

/// The commands by their first word.
#[derive(Clone, Copy, PartialEq, Eq, Debug)]
pub enum Verb {
    Bridge,
    Access,
    Cable,
    Pull,
    Station,
    Move,
    Send,
    Tick,
    Lose,
    Fall,
    Start,
    Rest,
    Tree,
    Adopt,
}

impl TryFrom<&[u8]> for Verb {
    type Error = Expected;

    ghost use Rattle.script.specs.declared.faults.Expected.{Expected};

    ghost try_from_gives = { λ word result. result ≡ ok_or (verb_of word.now) Expected.Command };

    /// Finds the command that a word begins.
    fn try_from(word: &[u8]) -> Result<Verb, Expected> {
        match word {
            b"bridge" => Ok(Verb::Bridge),
            b"access" => Ok(Verb::Access),
            b"cable" => Ok(Verb::Cable),
            b"pull" => Ok(Verb::Pull),
            b"station" => Ok(Verb::Station),
            b"move" => Ok(Verb::Move),
            b"send" => Ok(Verb::Send),
            b"tick" => Ok(Verb::Tick),
            b"lose" => Ok(Verb::Lose),
            b"fall" => Ok(Verb::Fall),
            b"start" => Ok(Verb::Start),
            b"rest" => Ok(Verb::Rest),
            b"tree" => Ok(Verb::Tree),
            b"adopt" => Ok(Verb::Adopt),
            _ => Err(Expected::Command),
        }
    }
}
