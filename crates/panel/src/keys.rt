// The page record and the keys. `step` goes by value; `next`, `previous`, `home` and `show` take the record where it is kept.
ghost use Rattle.std.specs.Prelude.{◌≡◌};
ghost use Rattle.rules.specs.Keys.{stands_at, moved, step as stepped};

use rules::{Key, Page};

// Where the page stands before the key: home for another book or requirement, and a page past the last acts as the last.
fn page_before(page: Page, book: u32, requirement: u32, members: u32) -> u32
    ensures { result ≡ stands_at page book requirement members }
{
    if page.book != book {
        return 0;
    }
    if page.requirement != requirement {
        return 0;
    }
    if members < page.page {
        return members;
    }
    page.page
}

// Next on the last page and previous on the first stay put.
fn page_after(key: Key, last: u32, page: u32) -> u32
    ensures { result ≡ moved key last page }
{
    match key {
        Key::Show => page,
        Key::Next => if page < last { page + 1 } else { page },
        Key::Previous => if 0 < page { page - 1 } else { page },
        Key::Home => 0,
    }
}

// A key press, by value. A requirement with so many members has so many pages behind the first.
pub fn step(page: Page, key: Key, book: u32, requirement: u32, members: u32) -> Page
    ensures { result ≡ stepped page key book requirement members }
{
    let before = page_before(page, book, requirement, members);
    Page {
        book: book,
        requirement: requirement,
        page: page_after(key, members, before),
    }
}

// The keys over a record that is lent: each leaves in it what the step gives.
pub fn next(page: &mut Page, book: u32, requirement: u32, members: u32)
    ensures { page.new ≡ stepped page.old Key.Next book requirement members }
{
    let old = *page;
    *page = step(old, Key::Next, book, requirement, members);
}

pub fn previous(page: &mut Page, book: u32, requirement: u32, members: u32)
    ensures { page.new ≡ stepped page.old Key.Previous book requirement members }
{
    let old = *page;
    *page = step(old, Key::Previous, book, requirement, members);
}

pub fn home(page: &mut Page, book: u32, requirement: u32, members: u32)
    ensures { page.new ≡ stepped page.old Key.Home book requirement members }
{
    let old = *page;
    *page = step(old, Key::Home, book, requirement, members);
}

pub fn show(page: &mut Page, book: u32, requirement: u32, members: u32)
    ensures { page.new ≡ stepped page.old Key.Show book requirement members }
{
    let old = *page;
    *page = step(old, Key::Show, book, requirement, members);
}

// The record by value: what the keys leave in it, for every other caller.
pub fn pressed(page: Page, key: Key, book: u32, requirement: u32, members: u32) -> Page
    ensures { result ≡ stepped page key book requirement members }
{
    let mut kept = page;
    match key {
        Key::Next => next(&mut kept, book, requirement, members),
        Key::Previous => previous(&mut kept, book, requirement, members),
        Key::Home => home(&mut kept, book, requirement, members),
        Key::Show => show(&mut kept, book, requirement, members),
    }
    kept
}
