use dn_cert::Opened;
use dn_report::UnopenedWord;

/// What a payload carries, whose every signature verified, or why it doesn't open.
#[derive(Drop)]
pub enum Content {
    Open(Opened),
    Closed(UnopenedWord),
}
