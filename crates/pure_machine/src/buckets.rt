//! Values in buckets, found by a key.
ghost use Rattle.std.specs.Prelude.{◌≡◌, ◌<◌, ◌++◌, [], ◌∷◌, ℕ, vec_len, IfOk, MatchResult};
ghost use Rattle.pure_machine.specs.Buckets.{bucket, IsPut};

use std::alloc::{AllocError, Global};
use std::marker::Model;

/// What was put into one bucket, in order.
#[derive(Drop)]
struct Bucket<T> {
    values: Vec<T>,
}

impl<T> Model for Bucket<T> {
    ghost use Rattle.std.specs.Prelude.{List};

    ghost Value = { List T };

    ghost view = { λ b. b.values.items };
}

/// Buckets, of which each key has one; it shares it with the keys that leave the same remainder by how many there are.
#[derive(Drop)]
pub(crate) struct Buckets<T> {
    list: Vec<Bucket<T>>,
}

impl<T> Model for Buckets<T> {
    ghost use Rattle.std.specs.Prelude.{List, ◌<◌, vec_len};

    ghost Value = { List (List T) };

    ghost view = { λ b. b.list.items };

    ghost invariant = { λ b. 0 < vec_len b.list };
}

/// So many empty buckets.
fn all_empty<T: Drop>(alloc: Global, count: usize) -> Result<Vec<Bucket<T>>, AllocError>
    requires { 0 < count }
    ensures some { IfOk result (λ list. 0 < vec_len list) }
    ensures empty { IfOk result (λ list. (key : ℕ) → bucket list.items key ≡ []) }
{
    let mut list = Vec::with_capacity(alloc, count)?;
    while list.len() < count {
        list.push(Bucket {
            values: Vec::new(alloc),
        })?;
    }
    Ok(list)
}

/// The number, and 1 in place of 0.
fn at_least_one(count: usize) -> usize
    ensures { 0 < result }
{
    if count == 0 {
        return 1;
    }
    count
}

/// Puts one value more into the bucket.
fn add<T: Drop>(bucket: &mut Bucket<T>, value: T) -> Result<(), AllocError>
    ensures { MatchResult result (λ _. bucket.new ≡ bucket.old ++ value ∷ []) (λ _. bucket.new ≡ bucket.old) }
{
    bucket.values.push(value)?;
    Ok(())
}

impl<T: Drop> Buckets<T> {
    /// So many buckets, and one at least, which are empty.
    pub fn new(alloc: Global, count: usize) -> Result<Buckets<T>, AllocError>
        ensures { IfOk result (λ b. (key : ℕ) → bucket b key ≡ []) }
    {
        let list = all_empty(alloc, at_least_one(count))?;
        Ok(Buckets { list })
    }

    /// What stands in the bucket of the key.
    pub fn of(&self, key: usize) -> &[T]
        ensures { result.now ≡ bucket self.now key }
    {
        let place = key % self.list.len();
        self.list[place].values.as_slice()
    }

    /// Puts a value into the bucket of the key.
    pub fn put(&mut self, key: usize, value: T) -> Result<(), AllocError>
        ensures { MatchResult result (λ _. IsPut self.old self.new key value) (λ _. self.new ≡ self.old) }
    {
        let place = key % self.list.len();
        add(&mut self.list[place], value)?;
        Ok(())
    }
}
