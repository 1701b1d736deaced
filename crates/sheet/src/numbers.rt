// Lines with a fixed count of numbers: what they say, and their numbers in the order in which they are written. (No `From` either
// way: what the lines say and arrays are types of other crates, and `From` has none of these laws.)
use rules::{Offer, Reading, TermsInput};

pub trait Numbered<const N: usize> {
    ghost use Rattle.std.specs.Prelude.{◌≡◌, ℕ, true, List};
    ghost use Rattle.template.specs.Templates.{apart, holes};
    ghost use Rattle.sheet.specs.Lines.{line_numbers, line_template, Said};

    ghost says: { Self → Said };

    ghost open_text: { List ℕ };

    // The line's text, with # where a number stands.
    fn template() -> &'static [u8]
        ensures { result.now ≡ open_text };

    fn numbers(&self) -> [i64; N]
        ensures { result ≡ line_numbers (says self.now) };

    fn of_numbers(numbers: &[i64; N]) -> Self
        ensures { line_numbers (says result) ≡ numbers.now };

    // One text serves for all that such a line can say, and it can be told where each of its N numbers ends.
    ghost one_text: { (x : Self) → line_template (says x) ≡ open_text };

    ghost has_holes: { holes open_text ≡ N };

    ghost stands_apart: { apart open_text ≡ true };
}

impl Numbered<8> for TermsInput {
    ghost use Rattle.std.specs.Prelude.{refl};
    ghost use Rattle.sheet.specs.Lines.{block_template, of_block};

    ghost says = { of_block };

    ghost open_text = { block_template };

    ghost one_text = { λ x. refl };

    ghost has_holes = { refl };

    ghost stands_apart = { refl };

    fn template() -> &'static [u8] {
        b"(block # # (band # #) (low # #) (high # #))"
    }

    fn numbers(&self) -> [i64; 8] {
        [
            self.ticks,
            self.needed,
            self.a,
            self.b,
            self.low.quantity,
            self.low.price,
            self.high.quantity,
            self.high.price,
        ]
    }

    fn of_numbers(numbers: &[i64; 8]) -> TermsInput {
        let [
            ticks,
            needed,
            a,
            b,
            low_quantity,
            low_price,
            high_quantity,
            high_price,
        ] = *numbers;
        TermsInput {
            ticks,
            needed,
            a,
            b,
            low: Offer {
                quantity: low_quantity,
                price: low_price,
            },
            high: Offer {
                quantity: high_quantity,
                price: high_price,
            },
        }
    }
}

impl Numbered<5> for Reading {
    ghost use Rattle.std.specs.Prelude.{refl};
    ghost use Rattle.sheet.specs.Lines.{of_reading, reading_template};

    ghost says = { of_reading };

    ghost open_text = { reading_template };

    ghost one_text = { λ x. refl };

    ghost has_holes = { refl };

    ghost stands_apart = { refl };

    fn template() -> &'static [u8] {
        b"(s # # # # #)"
    }

    fn numbers(&self) -> [i64; 5] {
        [
            self.tick,
            self.frequency,
            self.power,
            self.baseline,
            self.flag,
        ]
    }

    fn of_numbers(numbers: &[i64; 5]) -> Reading {
        let [tick, frequency, power, baseline, flag] = *numbers;
        Reading {
            tick,
            frequency,
            power,
            baseline,
            flag,
        }
    }
}
