ghost use Rattle.std.specs.Prelude.{◌≡◌, ◌≤◌, ◌<◌, ◌+◌, ◌^◌, Some, None, IsTrue, IfOk, OnOk, OnErr, length, vec_len};
ghost use Rattle.std.specs.Result.{result_map_both};
ghost use Rattle.object_names.specs.Giving.{allowed_count as allowed_count_of, behind_names, given_names, lacks_room as lacks_room_for};
ghost use Rattle.std.specs.FinMap as map;
ghost use Rattle.std.specs.HashMap.{spare};
ghost use Rattle.std.specs.Option.{option_copied};
ghost use Rattle.object_names.specs.Names.{object_at, free_names, with_names};

use gl_tokens::GlError;
use std::alloc::{AllocError, Global};
use std::collections::HashMap;
use std::marker::Model;

/// So many names may be live, and be asked for at once.
const MOST_NAMES: usize = 65536;

/// The live names of one kind, and the objects that they stand for.
#[derive(Drop)]
pub struct Names<V> {
    table: HashMap<u32, Option<V>>,
    alloc: Global,
}

impl<V> Model for Names<V> {
    ghost use Rattle.std.specs.Prelude.{Option};
    ghost use Rattle.std.specs.Ordering.{nat_cmp};
    ghost use Rattle.std.specs.FinMap as map;
    ghost use Rattle.std.specs.Coded.{coded_ℕ, coded_option};

    ghost Value = { map.FinMap nat_cmp (Option V) };

    ghost coded = { map.code coded_ℕ (coded_option V.code) };

    ghost view = { λ names. map.from_entries names.table.entries };
}

impl<V: Drop> Names<V> {
    /// No name is live. Nothing is allocated.
    pub fn new(alloc: Global) -> Names<V>
        ensures { result ≡ map.empty }
    {
        Names {
            table: HashMap::new(alloc),
            alloc,
        }
    }

    /// How many names are live.
    pub fn len(&self) -> usize
        ensures value { result ≡ map.len self.now }
        ensures small { result < 2 ^ 63 }
    {
        self.table.len()
    }

    /// Whether a name is live: it was given, or stands for an object.
    pub fn is_live(&self, name: u32) -> bool
        ensures { result ≡ map.contains_key self.now name }
    {
        self.table.contains_key(&name)
    }

    /// The object that a name stands for.
    pub fn get(&self, name: u32) -> Option<&V>
        ensures { option_copied result ≡ object_at self.now name }
    {
        let Some(object) = self.table.get(&name) else {
            return None;
        };
        object.as_ref()
    }

    /// The name is live and stands for this object, in the place of what it stood for. Where memory is out, nothing is
    /// changed.
    pub fn put(&mut self, name: u32, value: V) -> Result<(), AllocError>
        ensures live { OnOk result (self.new ≡ map.insert self.old name (Some value)) }
        ensures unchanged { OnErr result (self.new ≡ self.old) }
    {
        self.table.insert(name, Some(value))?;
        Ok(())
    }

    /// A live name stands for this object from now on; what it stood for is handed back. No memory is taken.
    pub fn replace(&mut self, name: u32, value: V) -> Option<V>
        requires { IsTrue (map.contains_key self.old name) }
        ensures old { result ≡ object_at self.old name }
        ensures new { self.new ≡ map.insert self.old name (Some value) }
    {
        match self.table.insert(name, Some(value)) {
            Ok(old) => old.flatten(),
            Err(_) => None,
        }
    }

    /// The name isn't live any more; the object that it stood for is handed back.
    pub fn remove(&mut self, name: u32) -> Option<V>
        ensures old { result ≡ object_at self.old name }
        ensures new { self.new ≡ map.remove self.old name }
    {
        self.table.remove(&name).flatten()
    }

    /// The names that a command gives which asks for so many, the least that aren't live, or its error. InvalidValue where
    /// the count is below 0 or above 65536; OutOfMemory where more than 65536 names would be live.
    pub fn names_for(&self, count: i32) -> Result<Result<Vec<u32>, GlError>, AllocError>
        ensures { IfOk result (λ answer. result_map_both (λ names. names.items) (λ error. error) answer ≡ given_names self.now count) }
    {
        let count = match self.allowed_count(count) {
            Ok(count) => count,
            Err(error) => return Ok(Err(error)),
        };
        let names = self.free(count)?;
        Ok(Ok(names))
    }

    /// Gives the names of [`Names::names_for`]: they are live from now on, and stand for no object yet. With an error, and
    /// where memory is out, nothing is changed.
    pub fn make_names(&mut self, count: i32) -> Result<Result<Vec<u32>, GlError>, AllocError>
        ensures names { IfOk result (λ answer. result_map_both (λ names. names.items) (λ error. error) answer ≡ given_names self.old count) }
        ensures live { OnOk result (self.new ≡ behind_names self.old (given_names self.old count)) }
        ensures unchanged { OnErr result (self.new ≡ self.old) }
    {
        let count = match self.allowed_count(count) {
            Ok(count) => count,
            Err(error) => return Ok(Err(error)),
        };
        let names = self.make(count)?;
        Ok(Ok(names))
    }

    /// Whether a name isn't live and can't become it, since 65536 others are.
    pub fn lacks_room(&self, name: u32) -> bool
        ensures { result ≡ lacks_room_for self.now name }
    {
        !self.is_live(name) && self.len() >= MOST_NAMES
    }

    /// How many names a command gives that asks for so many, or its error.
    fn allowed_count(&self, count: i32) -> Result<u32, GlError>
        ensures value { result ≡ allowed_count_of self.now count }
        ensures few { IfOk result (λ count. count + map.len self.now < 2 ^ 32) }
    {
        if count < 0 || count > MOST_NAMES as i32 {
            return Err(GlError::InvalidValue);
        }
        let count = count.unsigned_abs();
        if self.len() + count as usize > MOST_NAMES {
            return Err(GlError::OutOfMemory);
        }
        Ok(count)
    }

    /// The least names above 0 that aren't live, so many, in rising order.
    pub fn free(&self, count: u32) -> Result<Vec<u32>, AllocError>
        requires { count + map.len self.now < 2 ^ 32 }
        ensures names { IfOk result (λ names. names.items ≡ free_names self.now count) }
        ensures count { IfOk result (λ names. vec_len names ≡ count) }
    {
        let count = count as usize;
        let mut given = Vec::with_capacity(self.alloc, count)?;
        for before in 0..(count + self.len()) as u32 {
            if given.len() == count {
                return Ok(given);
            }
            if !self.is_live(before + 1) {
                given.push(before + 1)?;
            }
        }
        Ok(given)
    }

    /// The least names above 0 that aren't live, so many, in rising order; they are live from now on, and stand for no
    /// object yet. Where memory is out, nothing is changed.
    pub fn make(&mut self, count: u32) -> Result<Vec<u32>, AllocError>
        requires { count + map.len self.old < 2 ^ 32 }
        ensures names { IfOk result (λ names. names.items ≡ free_names self.old count) }
        ensures count { IfOk result (λ names. vec_len names ≡ count) }
        ensures live { OnOk result (self.new ≡ with_names self.old (free_names self.old count)) }
        ensures unchanged { OnErr result (self.new ≡ self.old) }
    {
        let given = self.free(count)?;
        self.table.reserve(given.len())?;
        add(&mut self.table, given.as_slice());
        Ok(given)
    }
}

/// These names are live as well. There is room for them, so no memory is taken.
fn add<V: Drop>(table: &mut HashMap<u32, Option<V>>, names: &[u32])
    requires { length names.now ≤ spare table.old }
    ensures { map.from_entries table.new.entries ≡ with_names (map.from_entries table.old.entries) names.now }
{
    for &name in names {
        let _ = table.insert(name, None);
    }
}
