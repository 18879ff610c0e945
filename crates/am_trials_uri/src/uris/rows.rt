//! Tables of rows: a text, and what is read from it.

/// A URI without a host, and its parts. Its path counts in no filter, since a filter's paths count only with a host.
pub const URIS: &str = "\
mailto:a@b.org -> mailto path=
mailto:John.Doe@example.com -> mailto path=
news:comp.infosystems.www.servers.unix -> news path=
tel:+1-816-555-1212 -> tel path=
urn:oasis:names:specification:docbook:dtd:xml:4.1.2 -> urn path=
g:h -> g path=
http:g -> http path=
a+b-c.1:x -> a+b-c.1 path=
file:/etc/hosts?a -> file path=/etc/hosts
x: -> x path=
x:/ -> x path=/
x:?a -> x path=
x:a%2 -> x path=
";

/// A rule on paths, a path, and whether it passes: rules of empty texts, which no filter may have, and paths without a
/// slash, which no URI with a host has.
pub const PATHS: &str = r"prefix= |  | passes
suffix=/a.pdf | a.pdf | fails
pattern=*x | *x | passes
pattern=*x | x | fails
pattern= |  | passes
pattern= | a | fails";
