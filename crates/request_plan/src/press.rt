//! A worked example: a press that prints sheets until it jams, which is for good, and a folder and a desk over it.

ghost use Rattle.std.specs.Prelude.{◌≡◌, Ok, Err, IfOk, IfErr, OnErr, MatchResult};
ghost use Rattle.request_plan.specs.Plan.{Ends, Stops};
ghost use Rattle.request_plan.specs.Press.{Prints, loaded, leaflet_plan, HandsOut};

use crate::{Follows, Guarded, Kept, Knows, Stepped};
use std::marker::Model;

/// Why no sheet was printed.
#[derive(Clone, Copy, Debug, PartialEq, Eq)]
pub enum Halted {
    /// No paper is left.
    NoPaper,
    /// The press jammed, now or before: it prints nothing any more.
    Jammed,
}

/// A press: the sheets that it printed, its paper, and after how many sheets more it jams.
#[derive(Debug, Drop)]
pub struct Press {
    sheets: u64,
    paper: u32,
    sound: u32,
    jammed: bool,
}

impl Model for Press {
    ghost use Rattle.std.specs.Prelude.{◌+◌, ◌^◌, ◌≤◌};
    ghost use Rattle.request_plan.specs.Press.{PressState};

    ghost Value = { PressState };

    ghost view = { λ p. record { sheets = p.sheets; paper = p.paper; sound = p.sound; jammed = p.jammed } };

    ghost invariant = { λ p. p.sheets + p.paper ≤ 2 ^ 32 };
}

impl Press {
    /// A press with so much paper, which jams after `sound` sheets.
    pub fn new(paper: u32, sound: u32) -> Press
        ensures { result ≡ loaded paper sound }
    {
        Press {
            sheets: 0,
            paper,
            sound,
            jammed: false,
        }
    }

    /// Prints a sheet; its number, the first being 1. Without paper the press is as it was. Where it jams it printed
    /// the first page alone, and every later call answers `Jammed` and changes nothing.
    pub fn print(&mut self) -> Result<u64, Halted>
        ensures { MatchResult result
            (λ number. Prints self.old tt (Ok number) self.new)
            (λ stop. Prints self.old tt (Err stop) self.new) }
    {
        if self.jammed {
            return Err(Halted::Jammed);
        }
        if self.paper == 0 {
            return Err(Halted::NoPaper);
        }
        if self.sound == 0 {
            self.jammed = true;
            return Err(Halted::Jammed);
        }
        self.sheets += 1;
        self.paper -= 1;
        self.sound -= 1;
        Ok(self.sheets)
    }
}

impl Stepped for Press {
    ghost use Rattle.request_plan.specs.Press.{Prints};

    type Request = ();

    type Answer = u64;

    type Stop = Halted;

    ghost step = { Prints };
}

impl Kept for Press {
    ghost use Rattle.request_plan.specs.Press.{IsSound};

    ghost holds = { IsSound };
}

impl Guarded for Press {
    ghost use Rattle.request_plan.specs.Press.{IsFew};

    ghost clean = { IsFew };
}

impl Follows for Press {
    ghost use Rattle.request_plan.specs.Press.{IsLike, IsJam, IsFirstPage, IsOut, IsEmpty};

    type Held = (u64, u32);

    type Record = u64;

    type Item = u64;

    ghost stands_for = { IsLike };

    ghost cuts = { IsJam };

    ghost part = { IsFirstPage };

    ghost late = { IsOut };

    ghost quiet = { IsEmpty };
}

/// A folder over a press: it makes leaflets of two sheets.
#[derive(Debug, Drop)]
pub struct Folder {
    press: Press,
    leaflets: u64,
}

impl Model for Folder {
    ghost use Rattle.std.specs.Prelude.{◌≤◌};
    ghost use Rattle.request_plan.specs.Press.{FolderState};

    ghost Value = { FolderState };

    ghost view = { λ f. record { press = f.press; leaflets = f.leaflets } };

    ghost invariant = { λ f. f.leaflets ≤ f.press.sheets };
}

impl Folder {
    /// A folder over this press, which made nothing.
    pub fn new(press: Press) -> Folder
        ensures { result ≡ record { press = press; leaflets = 0 } }
    {
        Folder { press, leaflets: 0 }
    }

    /// Makes a leaflet: two sheets, one after the other; the number of the second. A leaflet that was stopped doesn't
    /// count, and the first stop is answered.
    pub fn fold(&mut self) -> Result<u64, Halted>
        ensures ends { IfOk result (λ last. Ends Prints (leaflet_plan self.old.leaflets tt)
            self.old.press self.new.press (self.new.leaflets, last)) }
        ensures stops { IfErr result (λ stop. Stops Prints (leaflet_plan self.old.leaflets tt)
            self.old.press self.new.press stop tt) }
        ensures unchanged { OnErr result (self.new.leaflets ≡ self.old.leaflets) }
    {
        self.press.print()?;
        let last = self.press.print()?;
        self.leaflets += 1;
        Ok(last)
    }
}

impl Stepped for Folder {
    ghost use Rattle.request_plan.specs.Press.{Folds};

    type Request = ();

    type Answer = u64;

    type Stop = Halted;

    ghost step = { Folds };
}

/// A desk over a press: it hands out so many sheets, and refuses each request after them.
#[derive(Debug, Drop)]
pub struct Desk {
    press: Press,
    left: u64,
}

impl Model for Desk {
    ghost use Rattle.request_plan.specs.Press.{DeskState};

    ghost Value = { DeskState };

    ghost view = { λ d. record { press = d.press; left = d.left } };
}

impl Desk {
    /// A desk over this press that may hand out so many sheets.
    pub fn new(press: Press, left: u64) -> Desk
        ensures { result ≡ record { press = press; left = left } }
    {
        Desk { press, left }
    }

    /// Hands out a sheet; its number. Where none is left to hand out it refuses, and doesn't ask the press. Where the
    /// press answers a stop, that is answered, and as many are left as before.
    pub fn hand_out(&mut self) -> Result<u64, Halted>
        ensures { MatchResult result
            (λ number. HandsOut self.old tt (Ok number) self.new)
            (λ stop. HandsOut self.old tt (Err stop) self.new) }
    {
        if self.left == 0 {
            return Err(Halted::NoPaper);
        }
        let number = self.press.print()?;
        self.left -= 1;
        Ok(number)
    }
}

impl Stepped for Desk {
    ghost use Rattle.request_plan.specs.Press.{HandsOut};

    type Request = ();

    type Answer = u64;

    type Stop = Halted;

    ghost step = { HandsOut };
}

impl Kept for Desk {
    ghost use Rattle.request_plan.specs.Press.{HasSoundPress};

    ghost holds = { HasSoundPress };
}

impl Knows<u64, u64> for Desk {
    ghost use Rattle.request_plan.specs.Press.{AsksForRest, IsRest};

    ghost known = { AsksForRest };

    ghost known_left = { IsRest };
}

#[cfg(test)]
mod tests {
    use super::{Desk, Folder, Halted, Press};

    #[test]
    fn folds_until_it_jams(rt: HostRuntime) {
        let mut folder = Folder::new(Press::new(9, 3));
        assert_eq!(rt; folder.fold(), Ok(2));
        assert_eq!(rt; folder.fold(), Err(Halted::Jammed));
        assert_eq!(rt; folder.fold(), Err(Halted::Jammed));
    }

    #[test]
    fn hands_out_what_is_left(rt: HostRuntime) {
        let mut desk = Desk::new(Press::new(9, 9), 2);
        assert_eq!(rt; desk.hand_out(), Ok(1));
        assert_eq!(rt; desk.hand_out(), Ok(2));
        assert_eq!(rt; desk.hand_out(), Err(Halted::NoPaper));
    }
}
