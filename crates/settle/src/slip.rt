ghost use Rattle.std.specs.Prelude.{true, false, ◌≡◌};

// A save slip stands for a run that is yet to be settled. It may be let go only when it is spent, and nothing outside this
// crate spends it, so a slip that lapses is not proved.
pub struct SaveSlip {
    // A rule of the project: the slip's drop is allowed only when it is spent, and settling takes it beside the run.
    spent: bool,
}

impl SaveSlip {
    pub(crate) fn new() -> SaveSlip
        ensures { result.spent ≡ false }
    {
        SaveSlip { spent: false }
    }

    // The slip is let go here, so there is nothing left to say of it.
    pub(crate) fn spend(mut self) {
        self.spent = true;
    }
}

impl Drop for SaveSlip {
    fn drop(self)
        requires { self.spent ≡ true }
    {
        let SaveSlip { spent: _ } = self;
    }
}
