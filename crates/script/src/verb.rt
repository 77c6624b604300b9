// What a line asks to be done.
ghost use Rattle.std.specs.Prelude.{◌≡◌, MatchOption, ◌≢◌};
ghost use Rattle.script.specs.Parts.{spelled};
ghost use Rattle.script.specs.declared.verb.Verb.{Verb};

#[derive(Clone, Copy, PartialEq, Eq, Debug)]
pub(crate) enum Verb {
    Note,
    Turn,
    Take,
    Lose,
    Stop,
    Enter,
}

// The verb that a value spells.
pub(crate) fn read_verb(value: &[u8]) -> Option<Verb>
    ensures { MatchOption result ((w : Verb) → value.now ≢ spelled w) (λ w. value.now ≡ spelled w) }
{
    match value {
        b"note" => Some(Verb::Note),
        b"turn" => Some(Verb::Turn),
        b"take" => Some(Verb::Take),
        b"lose" => Some(Verb::Lose),
        b"stop" => Some(Verb::Stop),
        b"enter" => Some(Verb::Enter),
        _ => None,
    }
}
