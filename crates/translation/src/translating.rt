//! From a body to the frame of its translation, whatever the direction.

ghost use Rattle.std.specs.Prelude.{◌≡◌, ◌++◌, ℕ, List, IfErr, OnErr, OnOk};
ghost use Rattle.field_groups.specs.Field.{body_of, field_bytes};
ghost use Rattle.translation.specs.Bodies.{Direction, IsRefused, IsTranslation};
ghost use Rattle.translation.specs.Going.{Appends, IsFair, IsOtherOf, Refuses, StayBack};
ghost use Rattle.translation.specs.Header.{carried_field, carried_tags, type_of};
ghost use Rattle.translation.specs.Writing.{put as put_tags};

use crate::error::TranslateError;
use crate::lengths::check_lengths;
use field_groups::{Fields, Split, split_into};
use frame_grammar::{FrameError, Kind, write_frame};
use std::alloc::{AllocError, Global};

/// What translates the fields of a body in a direction.
pub trait Translating {
    /// The direction.
    ghost course: { Self → Direction };

    /// The kind of the frames that are written.
    fn kind(&self) -> Kind
        ensures { result ≡ (course self.now).kind };

    /// Appends MsgType(35) and the header that goes with it, of a body that begins with the fields.
    ///
    /// # Errors
    ///
    /// `AllocError` for want of memory; then a part of the header may stand at the end of `out`.
    fn put_head(
        &self,
        body: &[u8],
        fields: &Fields<'_>,
        out: &mut Vec<u8>,
    ) -> Result<(), AllocError>
        requires { (left : List ℕ) × (body.now ≡ body_of fields.now ++ left) }
        ensures { OnOk result (out.new.items
            ≡ put_tags (carried_field ((course self.now).head fields.now)) (out.old.items
            ++ field_bytes (35, type_of ((course self.now).head fields.now))) carried_tags) };

    /// Appends the content that stands for the fields of a body.
    ///
    /// # Errors
    ///
    /// `Faulty` for the first fault of the fields, `Lacking` where they say what the version of the
    /// reader cannot say; `NoMemory` for want of memory.
    fn put(&self, split: &Split<'_>, out: &mut Vec<u8>) -> Result<(), TranslateError>
        ensures ok { OnOk result (Appends (course self.now) split.now.fields split.now.fault
            out.old.items out.new.items) }
        ensures refused { IfErr result
            (StayBack (course self.now) split.now.fields split.now.fault) };

    /// What the direction owes, for proofs. It does nothing.
    fn laws(&self)
        ensures { IsFair (course self.now) };
}

/// Writes to `other`, in place of what it has, the body that stands for the fields of a body.
#[inline]
#[tactic(auto, using(crate::proofs::Going::grows))]
fn write<T: Translating>(
    by: &T,
    body: &[u8],
    split: &Split<'_>,
    other: &mut Vec<u8>,
) -> Result<(), TranslateError>
    requires { (left : List ℕ) × (body.now ≡ body_of split.now.fields ++ left) }
    ensures ok { OnOk result
        (IsOtherOf (T.course by.now) split.now.fields split.now.fault other.new.items) }
    ensures refused { IfErr result
        (Refuses (T.course by.now) split.now.fields split.now.fault) }
{
    other.clear();
    by.put_head(body, &split.fields, other)?;
    let head = other.len();
    by.put(split, other)?;
    let whole = other.len();
    check_lengths(whole - head, whole)
}

/// Appends to `out` the frame of the body that stands for a body, which is made in `other`.
///
/// # Errors
///
/// `Faulty` for the first fault of the body, `Lacking` where it says what the version of the reader
/// cannot say, `TooLong` where the content would have more than 7,936 bytes or the body more than
/// 8,192, each exactly there; `NoMemory` for want of memory. `out` is then as it was.
#[inline]
pub fn translate<T: Translating>(
    by: &T,
    alloc: Global,
    body: &[u8],
    other: &mut Vec<u8>,
    out: &mut Vec<u8>,
) -> Result<(), TranslateError>
    ensures ok { OnOk result ((text : List ℕ)
        × IsTranslation (T.course by.now) body.now text
        × (out.new.items ≡ out.old.items ++ text)) }
    ensures refused { IfErr result (IsRefused (T.course by.now) body.now) }
    ensures err { OnErr result (out.new.items ≡ out.old.items) }
{
    by.laws();
    let mut split = Split::new(alloc);
    split_into(body, &mut split)?;
    write(by, body, &split, other)?;
    match write_frame(by.kind(), other, out) {
        Ok(()) => Ok(()),
        Err(FrameError::NoMemory) => Err(TranslateError::NoMemory),
        Err(FrameError::TooLong) => unreachable!(),
    }
}
