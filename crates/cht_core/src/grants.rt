ghost use Rattle.std.specs.Prelude.{◌≡◌};
ghost use Rattle.cht_core.specs.Granted.{IsOwn, AreOwn, view_granted, inputs_granted};

use cht_ids::List;
use task_types::{Inputs, Shared, View};

/// What a worker gets of one input of a task that it begins. Each number is the mask of the children that are not null: bit j, counted
/// from 0, for child j.
#[derive(Drop)]
pub enum Grant<C> {
    /// The input is null.
    Nothing,
    /// The content of a body that is of the worker's own store.
    Own(Shared<C>, u8),
    /// The content of a body of another worker's store, which the worker keeps already.
    Cached(Shared<C>, u8),
    /// A body of another worker's store, as the bytes of its content.
    Bytes(Shared<List<u8>>, u8),
}

impl<C> Grant<C> {
    // What is shown of an input, granted as the owner's object.
    fn own(view: View<C>) -> Grant<C>
        ensures own { IsOwn result }
        ensures shows { view_granted result ≡ view }
    {
        match view {
            View::Nothing => Grant::Nothing,
            View::There { content, present } => Grant::Own(content, present),
        }
    }

    // What a task is shown of it.
    fn into_view(self) -> View<C>
        requires { IsOwn self }
        ensures { result ≡ view_granted self }
    {
        match self {
            Grant::Nothing => View::Nothing,
            Grant::Own(content, present) => View::There { content, present },
            Grant::Cached(content, present) => View::There { content, present },
            Grant::Bytes(_, _) => View::Nothing,
        }
    }
}

/// What a worker gets of the inputs of a task that it begins: the first `count` grants, of at most four. What the others hold says
/// nothing.
#[derive(Drop)]
pub struct Grants<C> {
    /// How many inputs the task has.
    pub count: u32,
    /// Input 0.
    pub first: Grant<C>,
    /// Input 1.
    pub second: Grant<C>,
    /// Input 2.
    pub third: Grant<C>,
    /// Input 3.
    pub fourth: Grant<C>,
}

impl<C> Grants<C> {
    // What a task is shown of its inputs, granted as the owners' objects.
    pub(crate) fn own(inputs: Inputs<C>) -> Grants<C>
        ensures own { AreOwn result }
        ensures shows { inputs_granted result ≡ inputs }
    {
        Grants {
            count: inputs.count,
            first: Grant::own(inputs.first),
            second: Grant::own(inputs.second),
            third: Grant::own(inputs.third),
            fourth: Grant::own(inputs.fourth),
        }
    }

    /// What the task is shown of its inputs, where each is null or of the worker's own store. It takes no memory.
    pub fn into_inputs(self) -> Inputs<C>
        requires { AreOwn self }
        ensures { result ≡ inputs_granted self }
    {
        Inputs {
            count: self.count,
            first: self.first.into_view(),
            second: self.second.into_view(),
            third: self.third.into_view(),
            fourth: self.fourth.into_view(),
        }
    }
}
