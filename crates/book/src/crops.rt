// Crops: what each leaves on the field and in the ground.
ghost use Rattle.std.specs.Prelude.{◌≡◌, IfSome};
ghost use Rattle.book.specs.Crops.{row_of, ShareLimit};

use super::lookup::{Numbered, place};

// One crop's coefficients.
#[derive(Clone, Copy)]
pub struct CropRow {
    // by which the look-up finds it, so a number and no enum
    pub code: u32,
    // dry share of the harvest, hundredths
    pub dry: u8,
    // residue above ground per dry harvest, hundredths
    pub slope: u8,
    // residue above ground whatever the harvest, hundredths of a tonne per hectare
    pub intercept: u8,
    // nitrogen of the tops, thousandths
    pub tops_nitrogen: u8,
    // roots to what grows above ground, hundredths
    pub root_ratio: u8,
    // nitrogen of the roots, thousandths
    pub roots_nitrogen: u8,
    // share of burnt residue that is combusted, hundredths
    pub combusted: u8,
}

impl Numbered for CropRow {
    ghost number = { λ row. row.code };

    fn number(&self) -> u32 {
        self.code
    }
}

const CROP_ROWS: [CropRow; 6] = [
    // grains
    CropRow {
        code: 1,
        dry: 88,
        slope: 109,
        intercept: 88,
        tops_nitrogen: 6,
        root_ratio: 22,
        roots_nitrogen: 9,
        combusted: 80,
    },
    // maize
    CropRow {
        code: 2,
        dry: 87,
        slope: 103,
        intercept: 61,
        tops_nitrogen: 6,
        root_ratio: 22,
        roots_nitrogen: 7,
        combusted: 80,
    },
    // wheat
    CropRow {
        code: 3,
        dry: 89,
        slope: 151,
        intercept: 52,
        tops_nitrogen: 6,
        root_ratio: 24,
        roots_nitrogen: 9,
        combusted: 90,
    },
    // barley
    CropRow {
        code: 4,
        dry: 89,
        slope: 98,
        intercept: 59,
        tops_nitrogen: 7,
        root_ratio: 22,
        roots_nitrogen: 14,
        combusted: 80,
    },
    // soya
    CropRow {
        code: 5,
        dry: 91,
        slope: 93,
        intercept: 135,
        tops_nitrogen: 8,
        root_ratio: 19,
        roots_nitrogen: 8,
        combusted: 80,
    },
    // potatoes
    CropRow {
        code: 6,
        dry: 22,
        slope: 10,
        intercept: 106,
        tops_nitrogen: 19,
        root_ratio: 20,
        roots_nitrogen: 14,
        combusted: 80,
    },
];

// The row with this code; nothing, as look-ups answer, where there is none.
pub fn crop_row(code: u32) -> Option<CropRow>
    ensures row { result ≡ row_of code }
    ensures limit { ShareLimit result }
    ensures coded { IfSome result (λ row. row.code ≡ code) }
{
    let i = place(&CROP_ROWS, code)?;
    Some(CROP_ROWS[i])
}
