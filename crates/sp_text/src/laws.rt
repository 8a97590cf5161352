//! Laws about the definitions.
ghost use Rattle.std.specs.Prelude.{◌≡◌, ℕ, List, ◌++◌, Some};
ghost use Rattle.sp_text.specs.declared.faults.DimacsError.{DimacsError};
ghost use Rattle.sp_text.specs.declared.formats.Ranges.{Ranges};
ghost use Rattle.sp_text.specs.Formats.{Format};
ghost use Rattle.sp_text.specs.Text.{ItemLine, Spells};
ghost use Rattle.sp_text.specs.Accepted.{IsAccepted};
ghost use Rattle.sp_text.specs.First.{Judge, first_fault, fault_so_far, fault_at_end};
ghost use Rattle.sp_text.specs.Lines.{ended, rest};
ghost use Rattle.sp_text.specs.Meaning.{IsFirstFault, IsCut};

/// States that a fault shown by the beginning of a text is the first fault of every text with that beginning.
#[tactic(auto, using(crate::proofs::EarlyFaults::early_lasts))]
pub fn early_fault_is_first()
    ensures { (rules : Judge) (text more : List ℕ) (e : DimacsError)
        → fault_so_far rules text ≡ Some e → fault_at_end rules (text ++ more) ≡ Some e }
{}

/// States that the first fault of a text's lines is the fault of the first line that has one.
#[tactic(auto, using(crate::proofs::Meant::is_first))]
pub fn first_fault_is_least()
    ensures { (rules : Judge) (all : List (List ℕ)) (e : DimacsError)
        → first_fault rules all ≡ Some e → IsFirstFault rules all e }
{}

/// States that a text consists of its ended lines, each with its LF, and then the rest.
pub fn text_is_its_lines()
    ensures { (text : List ℕ) → IsCut text (ended text) (rest text) }
{}

/// States that in a text without a fault all numbers are in their ranges, and the number of items is within its limits.
pub fn accepted_text_is_in_range()
    ensures { (format : Format) (ranges : Ranges) (text problem : List ℕ) (items : List ItemLine)
        → Spells format ranges text problem items → IsAccepted format ranges problem items }
{}
