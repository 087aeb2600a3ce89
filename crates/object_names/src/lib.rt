//! The names of the objects of one kind: which are live, what each stands for, and the least ones that are free.
//!
//! Contracts see [`Names`] as a finite map from the live names to the objects that they stand for, `None` for a name
//! that was given and never bound, and cite `object_at`, `free_names` and `with_names`. Buffers keep their objects here;
//! so can every kind of object that commands name by numbers.
//!
//! ```text
//! let mut names = Names::new(alloc);
//! names.put(2, "two")?;
//! names.make(2)?; // 1 and 3
//! names.get(2) // Some("two"); get(3) is None, though is_live(3)
//! ```
#![tactic(auto)]

mod names;
#[cfg(test)]
mod tests;

pub use names::Names;
