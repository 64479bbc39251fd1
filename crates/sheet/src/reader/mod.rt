//! The reader: a place in the bytes of a sheet, which copies nothing.
ghost use Rattle.std.specs.Prelude.{◌≤◌, length};

/// A place in the bytes of a sheet.
#[derive(Clone, Copy)]
pub struct Reader<'a> {
    pub sheet: &'a [u8],
    pub place: usize,
    ghost inside: { place ≤ length sheet.now },
}

mod fields;
mod gate_records;
mod outputs;
mod sections;

pub use outputs::name_fits;
pub use sections::check;
