//! Runs: the device file `d`, the object of the outside whose first call fails, and the words; the input; the status
//! and the line on the errors; and the output. `\r\n` stands for the end of a line, and `-` for nothing. A line that
//! begins with `#` says what the next one shows.

pub const ROWS: &str =
    r#"bare store session --device d --store p | GET /v1/status HTTP/1.1\r\nAM-Key: sys\r\n\r\n | 7 am: store fault | -
bare store session --device d | GET /v1/status HTTP/1.1\r\nAM-Key: sys\r\n\r\n | 7 am: store fault | -
empty files session --device d | POST /v1/query HTTP/1.1\r\nAM-Key: k1\r\nContent-Length: 45\r\n\r\n{"intent":{"action":"a.X"},"kind":"activity"} | 4 am: file fault | -
empty input session --device d | POST /v1/query HTTP/1.1\r\nAM-Key: k1\r\nContent-Length: 45\r\n\r\n{"intent":{"action":"a.X"},"kind":"activity"} | 5 am: read fault | -
empty output session --device d | POST /v1/query HTTP/1.1\r\nAM-Key: k1\r\nContent-Length: 45\r\n\r\n{"intent":{"action":"a.X"},"kind":"activity"} | 6 am: write fault | -
empty errors session | POST /v1/query HTTP/1.1\r\nAM-Key: k1\r\nContent-Length: 45\r\n\r\n{"intent":{"action":"a.X"},"kind":"activity"} | 6 - | -
asking input visible --device d --as com.two | {"kind":"activity"} | 5 am: read fault | -
asking output visible --device d --as com.two | {"intent":{"action":"x.A"},"kind":"activity"} | 6 am: write fault | -
asking files visible --device d --as com.two | { | 4 am: file fault | -
# A serving over a network at which no link arrives. It reads no input.
empty none serve --device d --port 1 --workers 2 | - | 0 - | history 0 served 0\n
empty input serve --port=65535 --workers=64 --connections=1000000 --device=d | - | 0 - | history 0 served 0\n
bare none serve --device d --port 1 --workers 1 --store p --connections 1 | - | 0 - | history 0 served 0\n
unasked none serve --device d --port 1 --workers 1 | - | 0 - | history 0 served 0\n
empty network serve --device d --port 1 --workers 2 | - | 9 am: network fault | -
empty output serve --device d --port 1 --workers 2 | - | 6 am: write fault | -
empty network+errors serve --device d --port 1 --workers 2 | - | 6 - | -
# The words come first, then the device, the store, the rows and the network.
empty network serve --device d --port 1 | - | 2 am: usage | -
not_toml store+network serve --device d --port 1 --workers 2 | - | 3 am: device refused: not_toml | -
empty files+network serve --device d --port 1 --workers 2 | - | 4 am: file fault | -
empty network serve --device other --port 1 --workers 2 | - | 4 am: file fault | -
bare store+network serve --device d --port 1 --workers 2 | - | 7 am: store fault | -
taken store+network serve --device d --port 1 --workers 2 --store p | - | 7 am: store fault | -
taken network serve --device d --port 1 --workers 2 --store p | - | 10 am: kept rows refused: com.a | -
empty output drill --from 0 --packages 1 --requests 2 | - | 6 am: write fault | -"#;
