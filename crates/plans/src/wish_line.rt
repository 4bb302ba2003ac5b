//! What the words of a line wish.

ghost use Rattle.std.specs.Prelude.{◌≡◌, ◌<◌, ◌≤◌, length, map, IfOk, IfSome, IsTrue};
ghost use Rattle.pmbus_table.specs.Protect.{is_protection};
ghost use Rattle.texts.specs.Hex.{pair_of};
ghost use Rattle.plans.specs.WishLines.{rail_at, target_at, rail_mantissa, retries_at, count_at};
ghost use Rattle.plans.specs.WishLines.{poll_at, protection, voltage_wish, rail_retries};
ghost use Rattle.plans.specs.WishLines.{retries_wish, rail_polling, polling_wish, protect_wish};
ghost use Rattle.plans.specs.WishLines.{clear_wish, order_wish, wish_of, IsPoll, IsWishOn};

use crate::fault::LineFault;
use crate::number::{poll_count, retry_count, ticks_of};
use crate::volts::mantissa_of;
use crate::wish::{Poll, Wish};
use board::Board;
use pmbus_table::is_protection;
use texts::pair_of;

/// The rail that the word at a place names.
#[tactic(auto, unfolding(crate::specs::WishLines::rail_at))]
fn rail_at(board: &Board, at: usize, name: &str) -> Result<usize, LineFault>
    ensures value { result ≡ rail_at board.now at name.now }
    ensures there { IfOk result (λ rail. rail < length board.now.rails) }
{
    board.rail_named(name).ok_or(LineFault::NoRail(at))
}

/// The target that the word at a place names.
#[tactic(auto, unfolding(crate::specs::WishLines::target_at))]
fn target_at(board: &Board, at: usize, name: &str) -> Result<usize, LineFault>
    ensures value { result ≡ target_at board.now at name.now }
    ensures there { IfOk result (λ target. target < length board.now.targets) }
{
    board.target_named(name).ok_or(LineFault::NoTarget(at))
}

/// The mantissa of a rail's voltage.
#[tactic(auto, unfolding(crate::specs::WishLines::rail_mantissa))]
fn rail_mantissa(board: &Board, rail: usize, value: &str) -> Option<u16>
    ensures { result ≡ rail_mantissa board.now rail value.now }
{
    let target = board.target(board.rail(rail)?.target())?;
    mantissa_of(target.exponent(), value)
}

/// How many times is tried again, by the word at a place.
#[tactic(auto, unfolding(crate::specs::WishLines::retries_at))]
fn retries_at(at: usize, count: &str) -> Result<u16, LineFault>
    ensures value { result ≡ retries_at at count.now }
    ensures few { IfOk result (λ n. n ≤ 1000) }
{
    retry_count(count).ok_or(LineFault::NoRetries(at))
}

/// How many times is asked, by the word at a place.
#[tactic(auto, unfolding(crate::specs::WishLines::count_at))]
fn count_at(at: usize, count: &str) -> Result<u16, LineFault>
    ensures value { result ≡ count_at at count.now }
    ensures some { IfOk result (λ n. 1 ≤ n) }
    ensures few { IfOk result (λ n. n ≤ 1000) }
{
    poll_count(count).ok_or(LineFault::NoCount(at))
}

/// How it is asked, by two words, the first of them at a place.
#[tactic(auto, unfolding(crate::specs::WishLines::poll_at))]
fn poll_at(at: usize, interval: &str, count: &str) -> Result<Poll, LineFault>
    requires { at < 3 }
    ensures value { result ≡ poll_at at interval.now count.now }
    ensures fits { IfOk result (λ poll. IsPoll poll) }
{
    let ticks = ticks_of(interval).ok_or(LineFault::NoTicks(at))?;
    let times = count_at(at + 1, count)?;
    Ok(Poll { ticks, times })
}

/// A value that WRITE_PROTECT may have, in two digits.
fn protection(digits: &str) -> Option<u8>
    ensures value { result ≡ protection (pair_of digits.now) }
    ensures valid { IfSome result (λ value. IsTrue (is_protection value)) }
{
    pair_of(digits).filter(|value| is_protection(*value))
}

#[tactic(auto, unfolding(crate::specs::WishLines::voltage_wish))]
fn voltage_wish(board: &Board, operands: &[&str]) -> Result<Wish, LineFault>
    ensures value { result ≡ voltage_wish board.now (map (λ w. w.now) operands.now) }
    ensures fits { IfOk result
        (λ wish. IsWishOn (length board.now.rails) (length board.now.targets) wish) }
{
    let [rail, value] = operands else {
        return Err(LineFault::WordCount);
    };
    let rail = rail_at(board, 1, rail)?;
    let mantissa = rail_mantissa(board, rail, value).ok_or(LineFault::NoVoltage(2))?;
    Ok(Wish::Voltage { rail, mantissa })
}

#[tactic(auto, unfolding(crate::specs::WishLines::rail_retries))]
fn rail_retries(board: &Board, rail: &str, times: &str) -> Result<Wish, LineFault>
    ensures value { result ≡ rail_retries board.now rail.now times.now }
    ensures fits { IfOk result
        (λ wish. IsWishOn (length board.now.rails) (length board.now.targets) wish) }
{
    let rail = Some(rail_at(board, 1, rail)?);
    let times = retries_at(2, times)?;
    Ok(Wish::Retries { rail, times })
}

#[tactic(auto, unfolding(crate::specs::WishLines::retries_wish))]
fn retries_wish(board: &Board, operands: &[&str]) -> Result<Wish, LineFault>
    ensures value { result ≡ retries_wish board.now (map (λ w. w.now) operands.now) }
    ensures fits { IfOk result
        (λ wish. IsWishOn (length board.now.rails) (length board.now.targets) wish) }
{
    match operands {
        [times] => {
            let times = retries_at(1, times)?;
            Ok(Wish::Retries { rail: None, times })
        }
        [rail, times] => rail_retries(board, rail, times),
        _ => Err(LineFault::WordCount),
    }
}

#[tactic(auto, unfolding(crate::specs::WishLines::rail_polling))]
fn rail_polling(board: &Board, rail: &str, interval: &str, count: &str) -> Result<Wish, LineFault>
    ensures value { result ≡ rail_polling board.now rail.now interval.now count.now }
    ensures fits { IfOk result
        (λ wish. IsWishOn (length board.now.rails) (length board.now.targets) wish) }
{
    let rail = Some(rail_at(board, 1, rail)?);
    let poll = poll_at(2, interval, count)?;
    Ok(Wish::Polling { rail, poll })
}

#[tactic(auto, unfolding(crate::specs::WishLines::polling_wish))]
fn polling_wish(board: &Board, operands: &[&str]) -> Result<Wish, LineFault>
    ensures value { result ≡ polling_wish board.now (map (λ w. w.now) operands.now) }
    ensures fits { IfOk result
        (λ wish. IsWishOn (length board.now.rails) (length board.now.targets) wish) }
{
    match operands {
        [interval, count] => {
            let poll = poll_at(1, interval, count)?;
            Ok(Wish::Polling { rail: None, poll })
        }
        [rail, interval, count] => rail_polling(board, rail, interval, count),
        _ => Err(LineFault::WordCount),
    }
}

#[tactic(auto, unfolding(crate::specs::WishLines::protect_wish))]
fn protect_wish(board: &Board, operands: &[&str]) -> Result<Wish, LineFault>
    ensures value { result ≡ protect_wish board.now (map (λ w. w.now) operands.now) }
    ensures fits { IfOk result
        (λ wish. IsWishOn (length board.now.rails) (length board.now.targets) wish) }
{
    let [target, digits] = operands else {
        return Err(LineFault::WordCount);
    };
    let target = target_at(board, 1, target)?;
    let value = protection(digits).ok_or(LineFault::NoProtection(2))?;
    Ok(Wish::Protect { target, value })
}

#[tactic(auto, unfolding(crate::specs::WishLines::clear_wish))]
fn clear_wish(board: &Board, operands: &[&str]) -> Result<Wish, LineFault>
    ensures value { result ≡ clear_wish board.now (map (λ w. w.now) operands.now) }
    ensures fits { IfOk result
        (λ wish. IsWishOn (length board.now.rails) (length board.now.targets) wish) }
{
    let [target] = operands else {
        return Err(LineFault::WordCount);
    };
    let target = target_at(board, 1, target)?;
    Ok(Wish::Clear { target })
}

#[tactic(auto, unfolding(crate::specs::WishLines::order_wish))]
fn order_wish(board: &Board, operands: &[&str]) -> Result<Wish, LineFault>
    ensures value { result ≡ order_wish board.now (map (λ w. w.now) operands.now) }
    ensures fits { IfOk result
        (λ wish. IsWishOn (length board.now.rails) (length board.now.targets) wish) }
{
    let [first, second] = operands else {
        return Err(LineFault::WordCount);
    };
    let first = rail_at(board, 1, first)?;
    let second = rail_at(board, 2, second)?;
    if first == second {
        return Err(LineFault::SameRail);
    }
    Ok(Wish::Order { first, second })
}

/// The wish of a line's words, or why they are none.
#[tactic(auto, unfolding(crate::specs::WishLines::wish_of))]
pub(crate) fn wish_of(board: &Board, words: &[&str]) -> Result<Wish, LineFault>
    ensures value { result ≡ wish_of board.now (map (λ w. w.now) words.now) }
    ensures fits { IfOk result
        (λ wish. IsWishOn (length board.now.rails) (length board.now.targets) wish) }
{
    let [word, operands @ ..] = words else {
        return Err(LineFault::NoWish);
    };
    match *word {
        "voltage" => voltage_wish(board, operands),
        "retries" => retries_wish(board, operands),
        "poll" => polling_wish(board, operands),
        "protect" => protect_wish(board, operands),
        "clear" => clear_wish(board, operands),
        "order" => order_wish(board, operands),
        _ => Err(LineFault::NoWish),
    }
}
