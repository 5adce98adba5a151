//! Lists that share their front with the lists that they grow from.
ghost use Rattle.std.specs.Prelude.{◌≡◌, ◌∷◌, [], ◌++◌, ◌<◌, IfOk, OnOk, OnErr, length, get_or};
ghost use Rattle.pure_shared_maps.specs.View.{front_values, values_of};

use std::alloc::{AllocError, Global};
use std::marker::Model;
use std::sync::Arc;

/// With so many elements behind a small front a list makes a new front of all of them.
const FEW: usize = 32;

/// Behind a larger front may stand the so many-th part of what it has.
const PART: usize = 16;

/// A list, which contracts see as such. Its front stands behind a pointer that the lists which grow from it share; few elements stand behind the front.
#[derive(Drop)]
pub struct GrownList<T> {
    front: Option<Arc<Vec<Arc<T>>>>,
    rest: Vec<Arc<T>>,
}

impl<T> Model for GrownList<T> {
    ghost use Rattle.std.specs.Prelude.{List, ◌++◌};
    ghost use Rattle.std.specs.Coded.{coded_list};
    ghost use Rattle.pure_shared_maps.specs.View.{front_values, values_of};

    ghost Value = { List T };

    ghost coded = { coded_list T.code };

    ghost view = { λ l. front_values l.front ++ values_of l.rest.items };
}

/// The pointers of a front.
fn pointers<T>(front: &Option<Arc<Vec<Arc<T>>>>) -> &[Arc<T>]
    ensures { values_of result.now ≡ front_values front.now }
{
    match front {
        None => &[],
        Some(front) => front.as_slice(),
    }
}

/// Pointers to the same values.
fn shared<T: Drop>(alloc: Global, items: &[Arc<T>]) -> Result<Vec<Arc<T>>, AllocError>
    ensures { IfOk result (λ copies. values_of copies.items ≡ values_of items.now) }
{
    let copies = Vec::from_clones(alloc, items)?;
    Ok(copies)
}

/// A pointer to the same front.
fn shared_front<T: Drop>(
    front: &Option<Arc<Vec<Arc<T>>>>,
) -> Result<Option<Arc<Vec<Arc<T>>>>, AllocError>
    ensures { IfOk result (λ same. front_values same ≡ front_values front.now) }
{
    match front {
        None => Ok(None),
        Some(front) => {
            let same = Arc::try_clone(front)?;
            Ok(Some(same))
        }
    }
}

/// The front, or a new one, if there is none.
fn own_front<T: Drop>(
    alloc: Global,
    front: Option<Arc<Vec<Arc<T>>>>,
) -> Result<Arc<Vec<Arc<T>>>, AllocError>
    ensures { IfOk result (λ own. values_of own.value.items ≡ front_values front) }
{
    match front {
        None => {
            let own = Arc::new(alloc, Vec::new(alloc))?;
            Ok(own)
        }
        Some(front) => Ok(front),
    }
}

/// The front with these elements moved behind it: in place, where no other list shares it.
fn folded<T: Drop>(
    alloc: Global,
    front: Option<Arc<Vec<Arc<T>>>>,
    items: &mut Vec<Arc<T>>,
) -> Result<Arc<Vec<Arc<T>>>, AllocError>
    ensures all { IfOk result (λ all. values_of all.value.items ≡ front_values front ++ values_of items.old.items) }
    ensures moved { OnOk result (items.new.items ≡ []) }
{
    let mut own = own_front(alloc, front)?;
    let all = Arc::make_mut(&mut own)?;
    all.append(items)?;
    Ok(own)
}

impl<T: Drop> GrownList<T> {
    /// The list without an element.
    pub fn empty(alloc: Global) -> GrownList<T>
        ensures { result ≡ [] }
    {
        GrownList {
            front: None,
            rest: Vec::new(alloc),
        }
    }

    /// The same list, which shares all elements.
    pub fn share(&self, alloc: Global) -> Result<GrownList<T>, AllocError>
        ensures { IfOk result (λ same. same ≡ self.now) }
    {
        let front = shared_front(&self.front)?;
        let rest = shared(alloc, self.rest.as_slice())?;
        Ok(GrownList { front, rest })
    }

    /// The count of elements.
    pub fn len(&self) -> usize
        ensures { result ≡ length self.now }
    {
        let rest = self.rest.as_slice();
        pointers(&self.front).len() + rest.len()
    }

    /// The element at a place.
    pub fn get(&self, place: usize) -> &T
        requires { place < length self.now }
        ensures { result.now ≡ get_or self.now place result.now }
    {
        let front = pointers(&self.front);
        let rest = self.rest.as_slice();
        if place < front.len() {
            return &*front[place];
        }
        &*rest[place - front.len()]
    }

    /// Makes a front of all elements.
    fn fold(&mut self, alloc: Global) -> Result<(), AllocError>
        ensures { self.new ≡ self.old }
    {
        let mut all = shared(alloc, pointers(&self.front))?;
        let mut rest = shared(alloc, self.rest.as_slice())?;
        all.append(&mut rest)?;
        let all = Arc::new(alloc, all)?;
        self.front = Some(all);
        self.rest.clear();
        Ok(())
    }

    /// The list with an element more.
    pub fn with(self, alloc: Global, item: Arc<T>) -> Result<GrownList<T>, AllocError>
        ensures { IfOk result (λ more. more ≡ self ++ item.value ∷ []) }
    {
        let GrownList {
            mut front,
            mut rest,
        } = self;
        if rest.len() >= FEW.max(pointers(&front).len() / PART) {
            front = Some(folded(alloc, front, &mut rest)?);
        }
        rest.push(item)?;
        Ok(GrownList { front, rest })
    }

    /// Appends an element.
    pub fn push(&mut self, alloc: Global, item: Arc<T>) -> Result<(), AllocError>
        ensures ok { OnOk result (self.new ≡ self.old ++ item.value ∷ []) }
        ensures err { OnErr result (self.new ≡ self.old) }
    {
        let most = FEW.max(pointers(&self.front).len() / PART);
        if self.rest.len() >= most {
            self.fold(alloc)?;
        }
        self.rest.push(item)?;
        Ok(())
    }
}
