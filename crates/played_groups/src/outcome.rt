// What certificates say, in numbers that can be compared.
use dn_bits::Bits;
use dn_cert::Certificate;

/// What the body of a certificate says: its round, whether it is thin, how many clients it lists, its bits, and how many of them are 1.
#[derive(Clone, Copy, Debug, PartialEq, Eq)]
pub struct Outcome {
    pub r: u64,
    pub is_thin: bool,
    pub listed: usize,
    pub bits: u32,
    pub ones: u32,
}

/// How many places of a string are 1.
pub fn ones_in(out: &Bits) -> u32 {
    let mut ones = 0u32;
    for k in 0..out.len() {
        if out.get(k) {
            ones = ones.saturating_add(1);
        }
    }
    ones
}

/// What a certificate says.
pub fn outcome_of(certificate: &Certificate) -> Outcome {
    let body = certificate.body();
    Outcome {
        r: body.r.0,
        is_thin: body.thin,
        listed: body.listed.get().len(),
        bits: body.out.len(),
        ones: ones_in(&body.out),
    }
}
