//! A text split into all of its parts.
ghost use Rattle.std.specs.Prelude.{◌≡◌, ◌+◌, ◌≤◌, ◌⊎◌, ℕ, List, [], IfErr, IfNone, IfSome, length, map, vec_capacity, vec_len};
ghost use Rattle.std.specs.Result.{result_err};
ghost use Rattle.std.specs.Str.{chars};
ghost use Rattle.bytes_utils.specs.Outcome.{Outcome};
ghost use Rattle.bytes_utils_run.specs.AnySplitter.{AreToCome, MayRefuseAfter, splitter_of};
ghost use Rattle.bytes_utils_run.specs.Cutting.{ArePartsBy, JoinTo, cutting, IsCuttingAllowed};

use crate::how::How;
use crate::splitter::AnySplitter;
use bytes_utils::Reason;
use bytes_utils::string::{Storage, StrInner};
use std::alloc::Global;

/// The parts of a text, and the reason if not all were given.
#[derive(Drop)]
pub struct Parts<S: Storage> {
    /// All of the parts; if `refused` has a reason, the parts before the first that is missing.
    pub given: Vec<StrInner<S>>,
    /// Why parts are missing, if some are: a reason of the storage, or `OutOfMemory`.
    pub refused: Option<Reason>,
}

/// Appends all the parts that a splitter gives to an empty list.
fn gather_cut<S: Storage>(
    given: &mut Vec<StrInner<S>>,
    splitter: &mut AnySplitter<'_, S>,
) -> Result<(), Reason>
    requires empty { given.now.items ≡ [] }
    requires some { (parts : List (List ℕ)) × AreToCome splitter.now parts }
    ensures outcome { Outcome (AreToCome splitter.old) (map chars given.new.items) (result_err result) }
    ensures reason { IfErr result
        (λ reason. S.refuses reason ⊎ (reason ≡ Reason.OutOfMemory)) }
    ensures cause { IfErr result (λ reason.
        MayRefuseAfter S.refuses S.refuses_empty S.refuses_side
        splitter.old (map chars given.new.items) reason
        ⊎ ((reason ≡ Reason.OutOfMemory) × (vec_capacity given.new ≤ vec_len given.new))) }
{
    for item in splitter {
        let part = item?;
        given.reserve(1)?; // A refused `push` doesn't say that the list is full.
        given.push(part)?;
    }
    Ok(())
}

/// Splits a text into all of its parts. If a split or memory for the list is refused, returns the
/// first of them, not all, and the reason: one for which the next split may be refused, or
/// `OutOfMemory` if the list is full. Requires that the separator of `Inclusive` isn't empty (test:
/// `is_empty`).
pub fn cut_all<S: Storage>(alloc: Global, text: StrInner<S>, how: How<'_>) -> Parts<S>
    requires { IsCuttingAllowed how }
    ensures outcome { Outcome (ArePartsBy (cutting how.entry) (chars text))
        (map chars result.given.items) result.refused }
    ensures few { length result.given.items ≤ length (chars text) + 2 }
    ensures joined { IfNone result.refused
        (JoinTo (cutting how.entry) (chars text) (map chars result.given.items)) }
    // The reasons of the storage, and that of refused memory.
    ensures reason { IfSome result.refused
        (λ reason. S.refuses reason ⊎ (reason ≡ Reason.OutOfMemory)) }
    // After the given parts a split may be refused for it, or the list is full.
    ensures cause { IfSome result.refused (λ reason.
        MayRefuseAfter S.refuses S.refuses_empty S.refuses_side
        (splitter_of {S = S} {C = S.Creator} how.entry text) (map chars result.given.items) reason
        ⊎ ((reason ≡ Reason.OutOfMemory) × (vec_capacity result.given ≤ vec_len result.given))) }
{
    let mut given = Vec::new(alloc);
    let mut splitter = AnySplitter::new(text, how);
    let refused = gather_cut(&mut given, &mut splitter).err();
    drop(splitter); // An implicit drop would be proved here again, case by case.
    Parts { given, refused }
}
