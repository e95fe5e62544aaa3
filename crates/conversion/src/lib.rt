// The calls that turn a book into the other form of record, in another buffer: the book is only read, and the target is written when all is
// decided.
#![tactic(auto)]

mod old;
mod turning;

ghost use Rattle.std.specs.Prelude.{◌≡◌, true};
ghost use Rattle.record.specs.Record.{new_form, old_form};
ghost use Rattle.book.specs.Answer.{number_in};
ghost use Rattle.book.specs.Sound.{sound_in, orders_in};
ghost use Rattle.conversion.specs.Conversion.{to_new_call, to_old_call};

use book::refusal::Refusal;
use record::form::RecordForm;

// An old book goes to the target in the new form.
pub fn to_new(old: &[u8], target: &mut [u8]) -> Result<(), Refusal>
    ensures refused { number_in result ≡ (to_new_call old.now target.old).refusal }
    ensures bytes { target.new ≡ (to_new_call old.now target.old).book }
    ensures made_sound { number_in result ≡ 0 → sound_in new_form target.new ≡ true }
    ensures same_orders { number_in result ≡ 0 → orders_in new_form target.new ≡ orders_in old_form old.now }
{
    if !turning::is_whole(RecordForm::Old, old.len()) {
        return Err(Refusal::UnsoundBook);
    }
    let n = old::count_occupied(old);
    if !old::is_sound(old, n) {
        return Err(Refusal::UnsoundBook);
    }
    if turning::is_unfit(RecordForm::New, target.len(), n) {
        return Err(Refusal::UnfitTarget);
    }
    turning::fill(old, RecordForm::Old, target, RecordForm::New, n);
    Ok(())
}

// A book goes to the target in the old form.
pub fn to_old(book: &[u8], target: &mut [u8]) -> Result<(), Refusal>
    ensures refused { number_in result ≡ (to_old_call book.now target.old).refusal }
    ensures bytes { target.new ≡ (to_old_call book.now target.old).book }
    ensures made_sound { number_in result ≡ 0 → sound_in old_form target.new ≡ true }
    ensures same_orders { number_in result ≡ 0 → orders_in old_form target.new ≡ orders_in new_form book.now }
{
    let n = lookup::occupancy(book)?;
    if !turning::are_plain(book, RecordForm::New, n) {
        return Err(Refusal::NoOldForm);
    }
    if turning::is_unfit(RecordForm::Old, target.len(), n) {
        return Err(Refusal::UnfitTarget);
    }
    turning::fill(book, RecordForm::New, target, RecordForm::Old, n);
    Ok(())
}
