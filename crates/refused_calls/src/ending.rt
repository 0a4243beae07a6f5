ghost use Rattle.std.specs.Prelude.{◌≡◌};
ghost use Rattle.refused_calls.specs.declared.ending.Ending.TheVariants.{Answered};

/// How a call ended.
#[derive(Clone, Copy)]
pub enum Ending {
    /// It returned what it should.
    Answered,
    /// An allocation failed before the call.
    Unready,
    /// It reported out of memory, and left what is promised.
    Memory,
    /// It returned or left something else than is promised.
    Wrong,
}

impl Ending {
    /// How a call ended that returned what it should, or something else.
    pub fn of_answer(is_right: bool) -> Ending {
        if is_right {
            Ending::Answered
        } else {
            Ending::Wrong
        }
    }

    /// How a call ended that reported out of memory and left what is promised, or did not.
    pub fn of_memory(is_right: bool) -> Ending {
        if is_right {
            Ending::Memory
        } else {
            Ending::Wrong
        }
    }

    /// The line for it.
    pub fn line(self) -> &'static str {
        match self {
            Ending::Answered => "answered",
            Ending::Unready => "no memory before the call",
            Ending::Memory => "no memory, and all as promised",
            Ending::Wrong => "wrong",
        }
    }

    /// The program's status for it: 0 only if the call returned what it should.
    pub fn status(self) -> u8
        ensures { result ≡ 0 → self ≡ Answered }
    {
        match self {
            Ending::Answered => 0,
            Ending::Unready | Ending::Memory => 3,
            Ending::Wrong => 4,
        }
    }
}
