ghost use Rattle.std.specs.Prelude.{◌≡◌, ◌+◌, ◌≤◌};

use super::*;
use std::test::*;
use std::thread::join;

#[test]
fn counts_what_is_minted_parked_and_shared(rt: HostRuntime) -> Result<(), Fail> {
    let (desk, mut book) = Desk::new(rt.alloc())?;
    let mut share = book.mint(&desk, 5);
    let two = share.split(&desk, 2);
    book.take_in(&desk, two);
    assert_eq!(rt; (book.minted(), book.parked(), share.amount()), (5, 2, 3));
    book.burn(&desk, share);
    assert_eq!(rt; (book.minted(), book.parked()), (2, 2));
    let mut one = book.give_out(&desk, 1);
    let more = book.mint(&desk, 7);
    one.join(&desk, more);
    assert_eq!(rt; (book.minted(), book.parked(), one.amount()), (9, 1, 8));
    Ok(())
}

// Cuts a share in two, and joins the parts again.
fn cut(desk: &Desk, mut share: Share, n: u64) -> Share
    requires own { share.desk ≡ desk.now }
    requires enough { n ≤ share.amount }
    ensures { result ≡ share }
{
    let part = share.split(desk, n);
    let mut whole = part;
    whole.join(desk, share);
    whole
}

// Parks a share.
fn park(desk: &Desk, mut book: Book, share: Share) -> Book
    requires own { (book.desk ≡ desk.now) × (share.desk ≡ desk.now) }
    ensures { result ≡ record book { parked = book.parked + share.amount } }
{
    book.take_in(desk, share);
    book
}

#[test]
fn shares_and_the_book_cross_threads(rt: HostRuntime) -> Result<(), Fail> {
    let (desk, mut book) = Desk::new(rt.alloc())?;
    let at = &desk;
    let mut first = book.mint(at, 9);
    let second = first.split(at, 4);
    let third = first.split(at, 2);
    let (book, second) = join(
        &rt,
        move ||
            requires { (book.desk ≡ at.now) × (first.desk ≡ at.now) }
            ensures { result ≡ record book { parked = book.parked + first.amount } }
        { park(at, book, first) },
        move ||
            requires { (second.desk ≡ at.now) × (1 ≤ second.amount) }
            ensures { result ≡ second }
        { cut(at, second, 1) },
    );
    let (book, third) = join(
        &rt,
        move ||
            requires { (book.desk ≡ at.now) × (second.desk ≡ at.now) }
            ensures { result ≡ record book { parked = book.parked + second.amount } }
        { park(at, book, second) },
        move ||
            requires { (third.desk ≡ at.now) × (1 ≤ third.amount) }
            ensures { result ≡ third }
        { cut(at, third, 1) },
    );
    let book = park(at, book, third);
    assert_eq!(rt; (book.minted(), book.parked()), (9, 9));
    Ok(())
}
