// What a pass is told: a text in a form, and the form that it is to have.
ghost use Rattle.std.specs.Prelude.{◌≤◌, length};
ghost use Rattle.paper.specs.Refusals.{longest_text};

use paper::Form;

// The text is no longer than what is not refused with 8.
#[derive(Clone, Copy)]
pub(crate) struct Conversion<'a> {
    pub(crate) form: Form,
    pub(crate) to: Form,
    pub(crate) text: &'a [u8],
    ghost short: { length text.now ≤ longest_text },
}
