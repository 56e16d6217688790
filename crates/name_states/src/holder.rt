use cht_ids::TaskNo;

/// Who holds an identifier. Each live identifier has exactly one holder.
#[derive(Clone, Copy, Debug, PartialEq, Eq)]
pub enum Holder {
    /// A caller, by its number from 0.
    Caller(u32),
    /// An unfinished task.
    Task(TaskNo),
    /// A body that has the identifier among its children, by the body's number.
    Body(u128),
}
