ghost use Rattle.std.specs.Prelude.{◌≤◌};

/// The numbers of the group's line, all within their limits.
#[derive(Clone, Copy)]
pub struct Sizes {
    pub clients: u32,
    pub servers: u32,
    pub ots: u32,
    pub client_lms: u32,
    pub server_lms: u32,
    pub ghost some_clients: { 1 ≤ clients },
    pub ghost few_clients: { clients ≤ 512 },
    pub ghost some_servers: { 1 ≤ servers },
    pub ghost few_servers: { servers ≤ 16 },
    pub ghost some_ots: { 1 ≤ ots },
    pub ghost few_ots: { ots ≤ 4 },
    pub ghost some_client_lms: { 5 ≤ client_lms },
    pub ghost few_client_lms: { client_lms ≤ 6 },
    pub ghost some_server_lms: { 5 ≤ server_lms },
    pub ghost few_server_lms: { server_lms ≤ 7 },
}
