// The names that elements, shifts and the ends of texts have in lines, and a refusal as it is said.
ghost use Rattle.std.specs.Prelude.{◌≡◌, ◌++◌, Some};
ghost use Rattle.std.specs.Fmt.{decimal};
ghost use Rattle.paper.specs.Lister.{ascii, control_element_name, element_name, shift_name, end_name};
ghost use Rattle.paper.specs.Refusals.{number_of};

use crate::{ControlElement, Element, EndWord, Refusal, Refused, Shift};
use std::fmt;

impl ControlElement {
    pub fn name(self) -> &'static str
        ensures { result.now ≡ control_element_name self }
    {
        match self {
            ControlElement::C0 => "C0",
            ControlElement::C1 => "C1",
        }
    }
}

impl Element {
    pub fn name(self) -> &'static str
        ensures { result.now ≡ element_name self }
    {
        match self {
            Element::G0 => "G0",
            Element::G1 => "G1",
            Element::G2 => "G2",
            Element::G3 => "G3",
        }
    }
}

impl Shift {
    pub fn name(self) -> &'static str
        ensures { result.now ≡ shift_name self }
    {
        match self {
            Shift::LS0 => "LS0",
            Shift::LS1 => "LS1",
            Shift::LS2 => "LS2",
            Shift::LS3 => "LS3",
            Shift::LS1R => "LS1R",
            Shift::LS2R => "LS2R",
            Shift::LS3R => "LS3R",
            Shift::SS2 => "SS2",
            Shift::SS3 => "SS3",
        }
    }
}

impl EndWord {
    pub fn name(self) -> &'static str
        ensures { result.now ≡ end_name self }
    {
        match self {
            EndWord::Whole => "whole",
            EndWord::Inside => "inside",
            EndWord::Lost => "lost",
        }
    }
}

// An impl for each type: one for all types that have a name is refused, since `Display` is no trait of this crate.
impl fmt::Display for ControlElement {
    ghost output = { λ e. Some (control_element_name e) };

    fn fmt<W: fmt::Write>(&self, f: &mut fmt::Formatter<W>) -> fmt::Result {
        f.write_str(self.name())
    }
}

impl fmt::Display for Element {
    ghost output = { λ e. Some (element_name e) };

    fn fmt<W: fmt::Write>(&self, f: &mut fmt::Formatter<W>) -> fmt::Result {
        f.write_str(self.name())
    }
}

impl fmt::Display for Shift {
    ghost output = { λ h. Some (shift_name h) };

    fn fmt<W: fmt::Write>(&self, f: &mut fmt::Formatter<W>) -> fmt::Result {
        f.write_str(self.name())
    }
}

impl fmt::Display for EndWord {
    ghost output = { λ w. Some (end_name w) };

    fn fmt<W: fmt::Write>(&self, f: &mut fmt::Formatter<W>) -> fmt::Result {
        f.write_str(self.name())
    }
}

// A refusal's number in the paper's table.
impl From<Refusal> for usize {
    ghost from_gives = { λ r n. n ≡ number_of r };

    fn from(refusal: Refusal) -> usize {
        refusal as usize
    }
}

impl fmt::Display for Refused {
    ghost output = { λ r. Some (ascii "refused " ++ decimal (number_of r.refusal) ++ ascii " at " ++ decimal r.place) };

    fn fmt<W: fmt::Write>(&self, f: &mut fmt::Formatter<W>) -> fmt::Result {
        let number = usize::from(self.refusal);
        let place = self.place;
        write!(f, "refused {number} at {place}")
    }
}
