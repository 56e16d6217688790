ghost use Rattle.std.specs.Prelude.{◌≡◌, ◌<◌, ◌≤◌, Some, slice_get, option_copied};
ghost use Rattle.task_types.specs.Presence.{is_present, has_child, presence_at, all_present};
ghost use Rattle.task_types.specs.Shown.{views_of, mask_presence, presence_in, presences_in};

use crate::shared::Shared;

/// What a task is shown of one input: nothing where it is null, else its content and which children it has.
#[derive(Drop)]
pub enum View<C> {
    /// The input is null.
    Nothing,
    /// The input is there. Bit j of `present`, counted from 0, is set exactly where child j is not null.
    There {
        /// The content of the input's body.
        content: Shared<C>,
        /// The mask of the children that are not null.
        present: u8,
    },
}

impl<C> View<C> {
    /// Whether the input is there.
    pub fn is_present(&self) -> bool
        ensures { result ≡ is_present (presence_in self.now) }
    {
        matches!(self, View::There { .. })
    }

    /// Whether the input is there and has a child with this number, counted from 0.
    pub fn has_child(&self, j: u8) -> bool
        ensures { result ≡ has_child (presence_in self.now) j }
    {
        match self {
            View::Nothing => false,
            View::There { present, .. } => has_bit(*present, j),
        }
    }
}

// Whether one of the first four bits of a mask is set.
fn has_bit(mask: u8, j: u8) -> bool
    ensures { result ≡ has_child (mask_presence mask) j }
{
    match j {
        0 => mask % 2 == 1,
        1 => mask / 2 % 2 == 1,
        2 => mask / 4 % 2 == 1,
        3 => mask / 8 % 2 == 1,
        _ => false,
    }
}

/// What a task is shown of its inputs: the first `count` views, of at most four. What the others hold says nothing.
#[derive(Drop)]
pub struct Inputs<C> {
    /// How many inputs the task has.
    pub count: u32,
    /// Input 0.
    pub first: View<C>,
    /// Input 1.
    pub second: View<C>,
    /// Input 2.
    pub third: View<C>,
    /// Input 3.
    pub fourth: View<C>,
}

impl<C> Inputs<C> {
    /// Input `i`, counted from 0.
    pub fn get(&self, i: u32) -> &View<C>
        requires within { i < self.now.count }
        requires few { self.now.count ≤ 4 }
        ensures { slice_get (views_of self.now) i ≡ Some result.now }
    {
        match i {
            0 => &self.first,
            1 => &self.second,
            2 => &self.third,
            _ => &self.fourth,
        }
    }

    /// Whether no input is null.
    pub fn all_present(&self) -> bool
        ensures { result ≡ all_present (presences_in self.now) }
    {
        let first = self.count < 1 || self.first.is_present();
        let second = self.count < 2 || self.second.is_present();
        let third = self.count < 3 || self.third.is_present();
        let fourth = self.count < 4 || self.fourth.is_present();
        first && second && third && fourth
    }

    // Input `i`, counted from 0; `None` past the last one.
    fn view_at(&self, i: u8) -> Option<&View<C>>
        ensures { option_copied result ≡ slice_get (views_of self.now) i }
    {
        if (i as u32) < self.count.min(4) {
            Some(match i {
                0 => &self.first,
                1 => &self.second,
                2 => &self.third,
                _ => &self.fourth,
            })
        } else {
            None
        }
    }

    /// Whether input `i`, counted from 0, is there.
    #[tactic(auto, using(crate::proofs::Presence::presence_at_lemmas))]
    pub fn is_present(&self, i: u8) -> bool
        ensures { result ≡ is_present (presence_at (presences_in self.now) i) }
    {
        match self.view_at(i) {
            Some(view) => view.is_present(),
            None => false,
        }
    }

    /// Whether input `i` is there and has a child `j`, both counted from 0.
    #[tactic(auto, using(crate::proofs::Presence::presence_at_lemmas))]
    pub fn has_child(&self, i: u8, j: u8) -> bool
        ensures { result ≡ has_child (presence_at (presences_in self.now) i) j }
    {
        match self.view_at(i) {
            Some(view) => view.has_child(j),
            None => false,
        }
    }
}
