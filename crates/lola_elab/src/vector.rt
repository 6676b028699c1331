/// A vector by its name, with its width of 1 to 128 bits.
#[derive(Debug, Drop)]
pub struct Vector {
    pub name: String,
    pub width: usize,
}
