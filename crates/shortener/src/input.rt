// What is shortened: a text in a form.
ghost use Rattle.std.specs.Prelude.{◌≤◌, length};
ghost use Rattle.shortest.specs.Shortening.{longest_input};

use paper::Form;

// The text is no longer than what is not refused as too long.
#[derive(Clone, Copy)]
pub(crate) struct Input<'a> {
    pub(crate) form: Form,
    pub(crate) text: &'a [u8],
    ghost short: { length text.now ≤ longest_input },
}
