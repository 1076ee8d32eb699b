//! Lists in pages, which the lists that are made of them share.

ghost use Rattle.std.specs.Prelude.{◌≡◌, ◌<◌, ◌≤◌, ◌+◌, [], ◌∷◌, ◌++◌, length, Some, IfOk, IfErr, OnOk, OnErr};
ghost use Rattle.std.specs.Prelude.{slice_get, slice_index_or, remove};
ghost use Rattle.std.specs.Arc.{arc_value};
ghost use Rattle.std.specs.List.{All};
ghost use Rattle.kn_pages.specs.Pages.{joined, pages_of, unless_empty, with_item, without_item};

use crate::sharing::share_items;
use kn_base::{List, NoMemory, Reserved};
use std::alloc::Global;
use std::marker::Model;
use std::mem;
use std::sync::Arc;

/// An item of a page: what is large of it is shared, so that to copy a page is to copy pointers.
pub trait Shareable: Drop {
    /// The same item, which shares what is large of it.
    fn share(&self) -> Result<Self, NoMemory>
        ensures { IfOk result (λ item. item ≡ self.now) };
}

/// The items of a page.
type Page<T> = List<T>;

/// A list in pages. It is seen as the list of its pages, each of them the list of its items.
///
/// Items are added and taken out in place. A list that is to stay as it is has to be shared first: that copies the
/// pointers to the closed pages and those of the last one, and the closed pages belong to both. Of these a page is
/// copied when an item is taken out of it for the first time.
#[derive(Drop)]
pub struct Pages<T> {
    /// The pages that get no more items.
    closed: List<Arc<Page<T>>>,
    /// The page behind them. It is empty only where there are no closed ones.
    last: Page<T>,
}

impl<T> Model for Pages<T> {
    ghost use Rattle.std.specs.Prelude.{List, ◌++◌, ◌≡◌, ◌≤◌, ◌⊎◌, [], length};
    ghost use Rattle.std.specs.Coded.{coded_list};
    ghost use Rattle.kn_pages.specs.Pages.{pages_of, unless_empty};

    ghost Value = { List (List T) };

    ghost coded = { coded_list (coded_list T.code) };

    ghost view = { λ p. pages_of p.closed ++ unless_empty p.last };

    ghost invariant = { λ p. (p.closed ≡ []) ⊎ (1 ≤ length p.last) };
}

impl<T: Shareable> Pages<T> {
    /// No pages. Takes no memory.
    pub fn empty(alloc: Global) -> Pages<T>
        ensures { result ≡ [] }
    {
        Pages {
            closed: List::new(alloc),
            last: List::new(alloc),
        }
    }

    /// How many pages there are. None of them is looked at.
    pub fn count(&self) -> usize
        ensures { result ≡ length self.now }
    {
        let closed = self.closed.len() as usize;
        if self.last.is_empty() {
            closed
        } else {
            closed + 1
        }
    }

    /// The items of the page at this place, counted from 0, in one piece.
    pub fn page(&self, page: usize) -> &[T]
        requires { page < length self.now }
        ensures { slice_get self.now page ≡ Some result.now }
    {
        match self.closed.as_slice().get(page) {
            Some(closed) => closed.as_slice(),
            None => self.last.as_slice(),
        }
    }

    /// The item at a place of a page, both counted from 0.
    #[tactic(auto, using(crate::proofs::PageLemmas::within_page, crate::proofs::PageLemmas::item_of_page))]
    pub fn item(&self, page: usize, place: usize) -> &T
        requires page { page < length self.now }
        requires place { place < length (slice_index_or self.now page []) }
        ensures { slice_get (slice_index_or self.now page []) place ≡ Some result.now }
    {
        &self.page(page)[place]
    }

    /// The item at place `i` of all, counted from 0. It is looked for page by page.
    pub fn get(&self, i: u32) -> &T
        requires { i < length (joined self.now) }
        ensures { slice_get (joined self.now) i ≡ Some result.now }
    {
        item_at(self.closed.as_slice(), self.last.as_slice(), i as usize)
    }

    /// The same list, which shares the closed pages and all items. Only pointers and the last page are copied.
    pub fn share(&self, alloc: Global) -> Result<Pages<T>, NoMemory>
        ensures { IfOk result (λ pages. pages ≡ self.now) }
    {
        Ok(Pages {
            closed: share_items(alloc, &self.closed)?,
            last: copy_page(alloc, &self.last)?,
        })
    }

    /// Adds an item at the end: on the last page, or where that has `most` items on a new one, which has room for as
    /// many.
    #[inline(always)]
    pub fn add(&mut self, alloc: Global, most: u32, item: T) -> Result<(), NoMemory>
        requires { 1 ≤ most }
        ensures added { OnOk result (self.new ≡ with_item most self.old item) }
        ensures kept { OnErr result (self.new ≡ self.old) }
    {
        if self.last.len() < most {
            return self.last.add(item);
        }
        let opened = begin_page(alloc, most, item)?;
        let closed = mem::replace(&mut self.closed, List::new(alloc));
        match close(alloc, closed, mem::replace(&mut self.last, opened)) {
            Ok(closed) => {
                self.closed = closed;
                Ok(())
            }
            Err((closed, last)) => {
                self.closed = closed;
                self.last = last;
                Err(NoMemory)
            }
        }
    }

    /// The list without the item at a place of a page, and without that page where it was the only one. Of a closed
    /// page that other lists have the items are copied.
    pub fn without_item(
        self,
        alloc: Global,
        page: usize,
        place: usize,
    ) -> Result<Pages<T>, NoMemory>
        requires page { page < length self }
        requires place { place < length (slice_index_or self page []) }
        requires none_empty { All (λ items. 1 ≤ length items) self }
        ensures { IfOk result (λ pages. pages ≡ without_item self page place) }
    {
        let Pages { closed, last } = self;
        if page >= closed.len() as usize {
            return without_last(alloc, closed, last, place);
        }
        Ok(Pages {
            closed: without_closed(alloc, closed, page as u32, place)?,
            last,
        })
    }
}

/// The item at place `i` of all in these closed pages and the last one, counted from 0.
fn item_at<'a, T>(closed: &'a [Arc<Page<T>>], last: &'a [T], i: usize) -> &'a T
    requires { i < length (joined (pages_of closed.now) ++ last.now) }
    ensures { slice_get (joined (pages_of closed.now) ++ last.now) i ≡ Some result.now }
{
    let mut left = i;
    for page in closed {
        if left < page.len() as usize {
            return &page.as_slice()[left];
        }
        left -= page.len() as usize;
    }
    &last[left]
}

/// A page with this item alone, and room for `most`.
fn begin_page<T: Drop>(alloc: Global, most: u32, item: T) -> Result<Page<T>, NoMemory>
    requires { 1 ≤ most }
    ensures { IfOk result (λ page. page ≡ item ∷ []) }
{
    let mut room = Reserved::new(alloc);
    room.reserve(most)?;
    room.put(item);
    Ok(room.finish())
}

/// These closed pages and the last one, which is closed. When out of memory, both come back.
fn close<T: Drop>(
    alloc: Global,
    closed: List<Arc<Page<T>>>,
    last: Page<T>,
) -> Result<List<Arc<Page<T>>>, (List<Arc<Page<T>>>, Page<T>)>
    ensures added { IfOk result (λ pages. pages_of pages ≡ pages_of closed ++ last ∷ []) }
    ensures closed_back { IfErr result (λ back. back.0 ≡ closed) }
    ensures last_back { IfErr result (λ back. back.1 ≡ last) }
{
    match closed.reserve(1) {
        Err((closed, NoMemory)) => Err((closed, last)),
        Ok(mut room) => match Arc::new(alloc, last) {
            Err(failed) => Err((room.finish(), failed.value)),
            Ok(full) => {
                room.put(full);
                Ok(room.finish())
            }
        },
    }
}

/// These closed pages and the last one without the item at a place of it. Where it was the only one, the page in front
/// of it is the last one again.
fn without_last<T: Shareable>(
    alloc: Global,
    closed: List<Arc<Page<T>>>,
    last: Page<T>,
    place: usize,
) -> Result<Pages<T>, NoMemory>
    requires place { place < length last }
    requires none_empty { All (λ items. 1 ≤ length items) (pages_of closed) }
    ensures { IfOk result (λ pages. pages ≡ pages_of closed ++ unless_empty (remove last place)) }
{
    let (mut closed, mut last) = (closed, last);
    if last.len() > 1 {
        let _item = last.remove(place as u32);
        return Ok(Pages { closed, last });
    }
    match closed.pop() {
        Some(page) => Ok(Pages {
            closed,
            last: own_page(alloc, page)?,
        }),
        None => Ok(Pages::empty(alloc)),
    }
}

/// These closed pages without the item at a place of one of them, and without that page where it was the only one.
fn without_closed<T: Shareable>(
    alloc: Global,
    closed: List<Arc<Page<T>>>,
    page: u32,
    place: usize,
) -> Result<List<Arc<Page<T>>>, NoMemory>
    requires page { page < length closed }
    requires place { place < length (slice_index_or (pages_of closed) page []) }
    ensures { IfOk result (λ pages. pages_of pages ≡ without_item (pages_of closed) page place) }
{
    let mut closed = closed;
    let count = closed.as_slice()[page as usize].len();
    if count <= 1 {
        let _page = closed.remove(page);
        return Ok(closed);
    }
    // a page of no items stands there as long as the page is out
    let Ok(empty) = Arc::new(alloc, List::new(alloc)) else {
        return Err(NoMemory);
    };
    let mut items = own_page(alloc, closed.replace(page, empty))?;
    let _item = items.remove(place as u32);
    let Ok(shorter) = Arc::new(alloc, items) else {
        return Err(NoMemory);
    };
    let _empty = closed.replace(page, shorter);
    Ok(closed)
}

/// The items of a page: the page itself where no other list has it, and else a copy.
fn own_page<T: Shareable>(alloc: Global, page: Arc<Page<T>>) -> Result<Page<T>, NoMemory>
    ensures { IfOk result (λ items. items ≡ arc_value page) }
{
    match Arc::try_unwrap(page) {
        Ok(items) => Ok(items),
        Err(shared) => copy_page(alloc, &shared),
    }
}

/// A page with the same items, and room for one more.
fn copy_page<T: Shareable>(alloc: Global, page: &Page<T>) -> Result<Page<T>, NoMemory>
    ensures { IfOk result (λ copy. copy ≡ page.now) }
{
    let mut room = Reserved::new(alloc);
    room.reserve(page.len().saturating_add(1))?;
    for item in page.as_slice() {
        room.put(item.share()?);
    }
    Ok(room.finish())
}
