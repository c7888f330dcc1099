// What a line may ask.

// An engine, by the name that a line gives it.
#[derive(Clone, Copy)]
pub enum Engine {
    // `khazad-field`
    KhazadField,
}

// A mode that works on the text in place. A chained one has its starting block.
#[derive(Clone, Copy)]
pub enum Mode {
    // `ecb-encipher`
    EcbEncipher,
    // `ecb-decipher`
    EcbDecipher,
    // `cbc-encipher`
    CbcEncipher(u64),
    // `cbc-decipher`
    CbcDecipher(u64),
}

// What is to be done with the text.
#[derive(Clone, Copy)]
pub enum Operation {
    InPlace(Mode),
    // `cmac`
    Cmac,
}

// A question that was understood: a text of any length, under a key.
#[derive(Drop)]
pub struct Question {
    pub engine: Engine,
    pub operation: Operation,
    pub key: [u8; 16],
    pub text: Vec<u8>,
}
