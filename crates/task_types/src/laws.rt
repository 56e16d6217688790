//! That a plan can be decided, for the kinds of any library. Each function does nothing: its contract is the law.

ghost use Rattle.task_types.specs.Places.{same_place};
ghost use Rattle.task_types.specs.Deciding.{same_kind, same_shape, Decides, DecidesOneOf};

use crate::kinds::Kinds;

/// Two places are equal exactly where the test of places says so.
pub fn places_decided()
    ensures { Decides same_place }
{}

/// Kinds are equal exactly where they have the same name and the same height. With this test of kinds, shapes are equal
/// exactly where their test says so, and a shape is one of a plan's exactly where it is found there.
pub fn plans_decided<K: Kinds>()
    ensures kinds { Decides (same_kind K.name_of K.height_of) }
    ensures shapes { Decides (same_shape (same_kind K.name_of K.height_of)) }
    ensures one_of { DecidesOneOf (same_kind K.name_of K.height_of) }
{}
