ghost use Rattle.std.specs.Prelude.{◌≡◌, ℕ, List};
ghost use Rattle.lola_port.specs.Device.{IsDevice, device_look, device_load, after_load, after_store};

/// What answers the loads and stores of one part of a bus. Addresses are byte addresses from the
/// start of that part, words have 32 bits.
///
/// A device means a list of numbers whose first is its kind: 0 a memory, 1 a log, 2 a tape, 3 a
/// counter. The answer of each call and the list after it follow from the list and the arguments
/// alone. A device never fails and takes no memory.
pub trait Device: Drop {
    // the kind, and what a device of that kind holds
    ghost list: { Self → List ℕ };

    /// What a load would answer. Nothing changes.
    fn look(&self, adr: u32) -> u32
        ensures { result ≡ device_look (list self.now) adr };

    /// The word at an address. A tape moves on by it, and a counter counts.
    fn load(&mut self, adr: u32) -> u32
        ensures answer { result ≡ device_load (list self.old) adr }
        ensures after { list self.new ≡ after_load (list self.old) };

    /// Hands over a word for an address. Where `byte` is set a memory takes only the byte lane of
    /// the address, lane `adr` modulo 4, from the same lane of the word.
    fn store(&mut self, adr: u32, word: u32, byte: bool)
        ensures { list self.new ≡ after_store (list self.old) adr word byte };

    // every device is of one of the four kinds
    ghost shaped: { (device : Self) → IsDevice (list device) };
}

/// A place on a bus: it serves the byte addresses from `from` up to, not including, `to`, and hands
/// its device the address minus `from`.
#[derive(Drop)]
pub struct Seat {
    pub from: u32,
    pub to: u32,
    pub device: Option<Box<dyn Device>>,
}
