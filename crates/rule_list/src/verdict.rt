/// What the rules say.
#[derive(Clone, Copy, PartialEq, Eq, Debug)]
pub enum Verdict {
    Pass { client: u32, socks: u32 },
    ClientBlock { client: u32 },
    ClientNone,
    SocksBlock { client: u32, socks: u32 },
    SocksNone { client: u32 },
}
