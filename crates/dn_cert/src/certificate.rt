ghost use Rattle.std.specs.Prelude.{◌≡◌, IfOk};
ghost use Rattle.dn_cert.specs.Certificate.{IsCertificate};

use dn_memory::NoMemory;
use dn_records::Body;
use std::alloc::Global;
use std::marker::Model;

/// A body that every server of a group signed, and the bytes that carry it with the signatures. It keeps the digest of the
/// group, the number of the group's clients and the servers' public keys, under which each signature verifies.
#[derive(Drop)]
pub struct Certificate {
    digest: [u8; 32],
    clients: u32,
    keys: Vec<[u8; 56]>,
    body: Body,
    bytes: Vec<u8>,
}

impl Model for Certificate {
    ghost use Rattle.dn_cert.specs.Certificate.{CertificateView, IsCertificate};

    ghost Value = { CertificateView };

    ghost view = { λ c. record { digest = c.digest; clients = c.clients; keys = c.keys.items; body = c.body; bytes = c.bytes.items } };

    ghost invariant = { λ c. IsCertificate record { digest = c.digest; clients = c.clients; keys = c.keys.items; body = c.body; bytes = c.bytes.items } };
}

impl Certificate {
    /// The certificate of these parts.
    pub(crate) fn of(
        digest: [u8; 32],
        clients: u32,
        keys: Vec<[u8; 56]>,
        body: Body,
        bytes: Vec<u8>,
    ) -> Certificate
        requires { IsCertificate record { digest = digest; clients = clients; keys = keys.items; body = body; bytes = bytes.items } }
        ensures { result ≡ record { digest = digest; clients = clients; keys = keys.items; body = body; bytes = bytes.items } }
    {
        Certificate {
            digest,
            clients,
            keys,
            body,
            bytes,
        }
    }

    /// The body.
    pub fn body(&self) -> &Body
        ensures value { result.now ≡ self.now.body }
        ensures certificate { IsCertificate self.now }
    {
        &self.body
    }

    /// The body, without the bytes.
    pub fn into_body(self) -> Body
        ensures value { result ≡ self.body }
        ensures certificate { IsCertificate self }
    {
        self.body
    }

    /// The bytes of the payload.
    pub fn bytes(&self) -> &[u8]
        ensures value { result.now ≡ self.now.bytes }
        ensures certificate { IsCertificate self.now }
    {
        &self.bytes
    }

    /// An equal certificate.
    pub fn copy(&self, alloc: Global) -> Result<Certificate, NoMemory>
        ensures same { IfOk result (λ c. c ≡ self.now) }
        ensures certificate { IsCertificate self.now }
    {
        Ok(Certificate {
            digest: self.digest,
            clients: self.clients,
            keys: Vec::from_slice(alloc, &self.keys)?,
            body: self.body.copy(alloc)?,
            bytes: Vec::from_slice(alloc, &self.bytes)?,
        })
    }
}
