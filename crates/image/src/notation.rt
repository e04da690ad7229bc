// The two ways to write records.

#[derive(Clone, Copy, PartialEq, Eq, Debug)]
pub enum Notation {
    // Intel HEX
    Intel,
    // Motorola S-records
    Motorola,
}
