// The rows of a body, which ascend by their clients.
ghost use Rattle.std.specs.Prelude.{◌≡◌, ◌≢◌, ◌<◌, ◌≤◌, length, All, Contains, IfSome, IfNone};
ghost use Rattle.std.specs.List.{AllWithin};
ghost use Rattle.dn_client.specs.Holding.{Ascends};

use dn_records::Listed;
use dn_wire::ClientId;

/// How many of them are of clients below this one.
fn count_below(rows: &[Listed], client: ClientId) -> usize
    requires { Ascends rows.now }
    ensures bound { result ≤ length rows.now }
    ensures below { AllWithin (λ l. l.client.0 < client.0) rows.now 0 result }
    ensures above { AllWithin (λ l. client.0 ≤ l.client.0) rows.now result (length rows.now) }
{
    rows.partition_point(|l| l.client < client)
}

/// The row of this client.
pub fn row_of(rows: &[Listed], client: ClientId) -> Option<&Listed>
    requires { Ascends rows.now }
    ensures found { IfSome result (λ l. Contains rows.now l.now × (l.now.client ≡ client)) }
    ensures missing { IfNone result (All (λ l. l.client.0 ≢ client.0) rows.now) }
{
    let at = count_below(rows, client);
    if at < rows.len() && rows[at].client == client {
        Some(&rows[at])
    } else {
        None
    }
}
