//! Servings over gates that park links: the device file `d` and the words; the status and the line on the errors; and
//! the output. Then each gate after `: `, with the number of its call for a link that fails, or `-`. Then its links:
//! the numbers of the calls of its reader that say that a read would wait, or `-`; which end of it fails, and at which
//! of its calls, or `none`; `left` is one that isn't served, and `parked` one that is parked at the end. Then what
//! comes over it, and what it took, if it was ended. `\r\n` stands for the end of a line, and `-` for nothing.

/// Servings whose answers are the same if no link rests.
pub const ALONE: &str = r#"# Links that rest in front of some frames.
empty serve --device d --port 8080 --workers 1 | 0 - | history 0 served 3\n
: -
1 3 4 | none | POST /v1/query HTTP/1.1\r\nAM-Key: k1\r\nContent-Length: 45\r\n\r\n{"intent":{"action":"a.X"},"kind":"activity"}POST /v1/query HTTP/1.1\r\nAM-Key: k1\r\nContent-Length: 45\r\n\r\n{"intent":{"action":"a.X"},"kind":"activity"}POST /v1/query HTTP/1.1\r\nAM-Key: k1\r\nContent-Length: 45\r\n\r\n{"intent":{"action":"a.X"},"kind":"activity"} -> HTTP/1.1 200 OK\r\nContent-Type: application/json\r\nContent-Length: 17\r\nAM-At: 0\r\nAM-Stored: 0\r\n\r\n{"components":[]}HTTP/1.1 200 OK\r\nContent-Type: application/json\r\nContent-Length: 17\r\nAM-At: 0\r\nAM-Stored: 0\r\n\r\n{"components":[]}HTTP/1.1 200 OK\r\nContent-Type: application/json\r\nContent-Length: 17\r\nAM-At: 0\r\nAM-Stored: 0\r\n\r\n{"components":[]}
2 | none | POST /v1/query HTTP/1.1\r\nAM-Key: k1\r\nContent-Length: 45\r\n\r\n{"intent":{"action":"a.X"},"kind":"activity"}POST /v1/query HTTP/1.1\r\nAM-Key: k1\r\nContent-Length: 45\r\n\r\n{"intent":{"action":"a.X"},"kind":"activity"} -> HTTP/1.1 200 OK\r\nContent-Type: application/json\r\nContent-Length: 17\r\nAM-At: 0\r\nAM-Stored: 0\r\n\r\n{"components":[]}HTTP/1.1 200 OK\r\nContent-Type: application/json\r\nContent-Length: 17\r\nAM-At: 0\r\nAM-Stored: 0\r\n\r\n{"components":[]}
1 2 3 | none | POST /v1/query HTTP/1.1\r\nAM-Key: k1\r\nContent-Length: 45\r\n\r\n{"intent":{"action":"a.X"},"kind":"activity"}GET /v1/none HTTP/1.1\r\n\r\n -> HTTP/1.1 200 OK\r\nContent-Type: application/json\r\nContent-Length: 17\r\nAM-At: 0\r\nAM-Stored: 0\r\n\r\n{"components":[]}HTTP/1.1 404 Not Found\r\nContent-Type: application/json\r\nContent-Length: 20\r\n\r\n{"error":"no_route"}
# Links of two gates.
empty serve --device d --port 8080 --workers 2 | 0 - | history 0 served 4\n
: -
2 | none | POST /v1/query HTTP/1.1\r\nAM-Key: k1\r\nContent-Length: 45\r\n\r\n{"intent":{"action":"a.X"},"kind":"activity"}POST /v1/query HTTP/1.1\r\nAM-Key: k1\r\nContent-Length: 45\r\n\r\n{"intent":{"action":"a.X"},"kind":"activity"} -> HTTP/1.1 200 OK\r\nContent-Type: application/json\r\nContent-Length: 17\r\nAM-At: 0\r\nAM-Stored: 0\r\n\r\n{"components":[]}HTTP/1.1 200 OK\r\nContent-Type: application/json\r\nContent-Length: 17\r\nAM-At: 0\r\nAM-Stored: 0\r\n\r\n{"components":[]}
1 3 | none | GET /v1/none HTTP/1.1\r\n\r\nPOST /v1/query HTTP/1.1\r\nAM-Key: k1\r\nContent-Length: 45\r\n\r\n{"intent":{"action":"a.X"},"kind":"activity"} -> HTTP/1.1 404 Not Found\r\nContent-Type: application/json\r\nContent-Length: 20\r\n\r\n{"error":"no_route"}HTTP/1.1 200 OK\r\nContent-Type: application/json\r\nContent-Length: 17\r\nAM-At: 0\r\nAM-Stored: 0\r\n\r\n{"components":[]}
: -
1 2 | none | POST /v1/query HTTP/1.1\r\nAM-Key: k1\r\nContent-Length: 45\r\n\r\n{"intent":{"action":"a.X"},"kind":"activity"} -> HTTP/1.1 200 OK\r\nContent-Type: application/json\r\nContent-Length: 17\r\nAM-At: 0\r\nAM-Stored: 0\r\n\r\n{"components":[]}
3 | none | POST /v1/query HTTP/1.1\r\nAM-Key: k1\r\nContent-Length: 45\r\n\r\n{"intent":{"action":"a.X"},"kind":"activity"}POST /v1/query HTTP/1.1\r\nAM-Key: k1\r\nContent-Length: 45\r\n\r\n{"intent":{"action":"a.X"},"kind":"activity"}POST /v1/query HTTP/1.1\r\nAM-Key: k1\r\nContent-Length: 45\r\n\r\n{"intent":{"action":"a.X"},"kind":"activity"} -> HTTP/1.1 200 OK\r\nContent-Type: application/json\r\nContent-Length: 17\r\nAM-At: 0\r\nAM-Stored: 0\r\n\r\n{"components":[]}HTTP/1.1 200 OK\r\nContent-Type: application/json\r\nContent-Length: 17\r\nAM-At: 0\r\nAM-Stored: 0\r\n\r\n{"components":[]}HTTP/1.1 200 OK\r\nContent-Type: application/json\r\nContent-Length: 17\r\nAM-At: 0\r\nAM-Stored: 0\r\n\r\n{"components":[]}
# One link that rests, and one that never does.
empty serve --device d --port 8080 --workers 1 | 0 - | history 0 served 2\n
: -
1 2 3 4 5 | none | POST /v1/query HTTP/1.1\r\nAM-Key: k1\r\nContent-Length: 45\r\n\r\n{"intent":{"action":"a.X"},"kind":"activity"}POST /v1/query HTTP/1.1\r\nAM-Key: k1\r\nContent-Length: 45\r\n\r\n{"intent":{"action":"a.X"},"kind":"activity"} -> HTTP/1.1 200 OK\r\nContent-Type: application/json\r\nContent-Length: 17\r\nAM-At: 0\r\nAM-Stored: 0\r\n\r\n{"components":[]}HTTP/1.1 200 OK\r\nContent-Type: application/json\r\nContent-Length: 17\r\nAM-At: 0\r\nAM-Stored: 0\r\n\r\n{"components":[]}
- | none | POST /v1/query HTTP/1.1\r\nAM-Key: k1\r\nContent-Length: 45\r\n\r\n{"intent":{"action":"a.X"},"kind":"activity"}POST /v1/query HTTP/1.1\r\nAM-Key: k1\r\nContent-Length: 45\r\n\r\n{"intent":{"action":"a.X"},"kind":"activity"} -> HTTP/1.1 200 OK\r\nContent-Type: application/json\r\nContent-Length: 17\r\nAM-At: 0\r\nAM-Stored: 0\r\n\r\n{"components":[]}HTTP/1.1 200 OK\r\nContent-Type: application/json\r\nContent-Length: 17\r\nAM-At: 0\r\nAM-Stored: 0\r\n\r\n{"components":[]}
# A link that ends in rest, an empty one, one that closes, one that is cut, and one that is refused.
empty serve --device d --port 8080 --workers 1 | 0 - | history 0 served 5\n
: -
2 3 | none | POST /v1/query HTTP/1.1\r\nAM-Key: k1\r\nContent-Length: 45\r\n\r\n{"intent":{"action":"a.X"},"kind":"activity"} -> HTTP/1.1 200 OK\r\nContent-Type: application/json\r\nContent-Length: 17\r\nAM-At: 0\r\nAM-Stored: 0\r\n\r\n{"components":[]}
1 2 | none | - -> -
1 | none | GET /v1/none HTTP/1.0\r\n\r\nno frame -> HTTP/1.1 404 Not Found\r\nContent-Type: application/json\r\nContent-Length: 20\r\n\r\n{"error":"no_route"}
1 2 | none | POST /v1/query HTTP/1.1\r\nAM-Key: k1\r\nContent-Length: 45\r\n\r\n{"intent":{"action":"a.X"},"kind":"activity"}POST -> HTTP/1.1 200 OK\r\nContent-Type: application/json\r\nContent-Length: 17\r\nAM-At: 0\r\nAM-Stored: 0\r\n\r\n{"components":[]}
2 | none | POST /v1/query HTTP/1.1\r\nAM-Key: k1\r\nContent-Length: 45\r\n\r\n{"intent":{"action":"a.X"},"kind":"activity"}POST\r\n\r\n -> HTTP/1.1 200 OK\r\nContent-Type: application/json\r\nContent-Length: 17\r\nAM-At: 0\r\nAM-Stored: 0\r\n\r\n{"components":[]}HTTP/1.1 400 Bad Request\r\nContent-Type: application/json\r\nContent-Length: 20\r\n\r\n{"error":"bad_head"}
# More gates than links.
empty serve --device d --port 8080 --workers 3 | 0 - | history 0 served 1\n
: -
: -
1 2 | none | POST /v1/query HTTP/1.1\r\nAM-Key: k1\r\nContent-Length: 45\r\n\r\n{"intent":{"action":"a.X"},"kind":"activity"}POST /v1/query HTTP/1.1\r\nAM-Key: k1\r\nContent-Length: 45\r\n\r\n{"intent":{"action":"a.X"},"kind":"activity"} -> HTTP/1.1 200 OK\r\nContent-Type: application/json\r\nContent-Length: 17\r\nAM-At: 0\r\nAM-Stored: 0\r\n\r\n{"components":[]}HTTP/1.1 200 OK\r\nContent-Type: application/json\r\nContent-Length: 17\r\nAM-At: 0\r\nAM-Stored: 0\r\n\r\n{"components":[]}
: -"#;

/// Servings in pieces of one byte, whose answers show the turns that the links take.
pub const INTERLEAVED: &str = r#"# Two links take turns, and each goes on with its next frame.
empty serve --device d --port 8080 --workers 1 | 0 - | history 4 served 2\n
: -
2 | none | POST /v1/tick HTTP/1.1\r\nAM-Key: sys\r\nContent-Length: 2\r\n\r\n{}POST /v1/tick HTTP/1.1\r\nAM-Key: sys\r\nContent-Length: 2\r\n\r\n{} -> HTTP/1.1 200 OK\r\nContent-Type: application/json\r\nContent-Length: 2\r\nAM-At: 0\r\nAM-Stored: 1\r\n\r\n{}HTTP/1.1 200 OK\r\nContent-Type: application/json\r\nContent-Length: 2\r\nAM-At: 2\r\nAM-Stored: 1\r\n\r\n{}
2 | none | POST /v1/tick HTTP/1.1\r\nAM-Key: sys\r\nContent-Length: 2\r\n\r\n{}POST /v1/tick HTTP/1.1\r\nAM-Key: sys\r\nContent-Length: 2\r\n\r\n{} -> HTTP/1.1 200 OK\r\nContent-Type: application/json\r\nContent-Length: 2\r\nAM-At: 1\r\nAM-Stored: 1\r\n\r\n{}HTTP/1.1 200 OK\r\nContent-Type: application/json\r\nContent-Length: 2\r\nAM-At: 3\r\nAM-Stored: 1\r\n\r\n{}
# Three links, of which one rests twice and one never.
empty serve --device d --port 8080 --workers 1 | 0 - | history 6 served 3\n
: -
2 4 | none | POST /v1/tick HTTP/1.1\r\nAM-Key: sys\r\nContent-Length: 2\r\n\r\n{}POST /v1/tick HTTP/1.1\r\nAM-Key: sys\r\nContent-Length: 2\r\n\r\n{}POST /v1/tick HTTP/1.1\r\nAM-Key: sys\r\nContent-Length: 2\r\n\r\n{} -> HTTP/1.1 200 OK\r\nContent-Type: application/json\r\nContent-Length: 2\r\nAM-At: 0\r\nAM-Stored: 1\r\n\r\n{}HTTP/1.1 200 OK\r\nContent-Type: application/json\r\nContent-Length: 2\r\nAM-At: 3\r\nAM-Stored: 1\r\n\r\n{}HTTP/1.1 200 OK\r\nContent-Type: application/json\r\nContent-Length: 2\r\nAM-At: 5\r\nAM-Stored: 1\r\n\r\n{}
- | none | POST /v1/tick HTTP/1.1\r\nAM-Key: sys\r\nContent-Length: 2\r\n\r\n{}POST /v1/tick HTTP/1.1\r\nAM-Key: sys\r\nContent-Length: 2\r\n\r\n{} -> HTTP/1.1 200 OK\r\nContent-Type: application/json\r\nContent-Length: 2\r\nAM-At: 1\r\nAM-Stored: 1\r\n\r\n{}HTTP/1.1 200 OK\r\nContent-Type: application/json\r\nContent-Length: 2\r\nAM-At: 2\r\nAM-Stored: 1\r\n\r\n{}
1 | none | POST /v1/tick HTTP/1.1\r\nAM-Key: sys\r\nContent-Length: 2\r\n\r\n{} -> HTTP/1.1 200 OK\r\nContent-Type: application/json\r\nContent-Length: 2\r\nAM-At: 4\r\nAM-Stored: 1\r\n\r\n{}
# A worker takes no new link once it took as many as it may, and serves those until they end.
empty serve --device d --port 8080 --workers 1 --connections 2 | 0 - | history 4 served 2\n
: -
2 | none | POST /v1/tick HTTP/1.1\r\nAM-Key: sys\r\nContent-Length: 2\r\n\r\n{}POST /v1/tick HTTP/1.1\r\nAM-Key: sys\r\nContent-Length: 2\r\n\r\n{} -> HTTP/1.1 200 OK\r\nContent-Type: application/json\r\nContent-Length: 2\r\nAM-At: 0\r\nAM-Stored: 1\r\n\r\n{}HTTP/1.1 200 OK\r\nContent-Type: application/json\r\nContent-Length: 2\r\nAM-At: 2\r\nAM-Stored: 1\r\n\r\n{}
2 | none | POST /v1/tick HTTP/1.1\r\nAM-Key: sys\r\nContent-Length: 2\r\n\r\n{}POST /v1/tick HTTP/1.1\r\nAM-Key: sys\r\nContent-Length: 2\r\n\r\n{} -> HTTP/1.1 200 OK\r\nContent-Type: application/json\r\nContent-Length: 2\r\nAM-At: 1\r\nAM-Stored: 1\r\n\r\n{}HTTP/1.1 200 OK\r\nContent-Type: application/json\r\nContent-Length: 2\r\nAM-At: 3\r\nAM-Stored: 1\r\n\r\n{}
- | left | POST /v1/tick HTTP/1.1\r\nAM-Key: sys\r\nContent-Length: 2\r\n\r\n{} -> -
# One that rests when the last is taken isn't ended for it.
empty serve --device d --port 8080 --workers 1 --connections 1 | 0 - | history 2 served 1\n
: -
2 | none | POST /v1/tick HTTP/1.1\r\nAM-Key: sys\r\nContent-Length: 2\r\n\r\n{}POST /v1/tick HTTP/1.1\r\nAM-Key: sys\r\nContent-Length: 2\r\n\r\n{} -> HTTP/1.1 200 OK\r\nContent-Type: application/json\r\nContent-Length: 2\r\nAM-At: 0\r\nAM-Stored: 1\r\n\r\n{}HTTP/1.1 200 OK\r\nContent-Type: application/json\r\nContent-Length: 2\r\nAM-At: 1\r\nAM-Stored: 1\r\n\r\n{}
- | left | POST /v1/tick HTTP/1.1\r\nAM-Key: sys\r\nContent-Length: 2\r\n\r\n{} -> -
# The gate fails while its links are parked.
empty serve --device d --port 8080 --workers 1 | 9 am: network fault | -
: 3
2 | parked | POST /v1/tick HTTP/1.1\r\nAM-Key: sys\r\nContent-Length: 2\r\n\r\n{}POST /v1/tick HTTP/1.1\r\nAM-Key: sys\r\nContent-Length: 2\r\n\r\n{} -> -
1 | parked | POST /v1/tick HTTP/1.1\r\nAM-Key: sys\r\nContent-Length: 2\r\n\r\n{} -> -
# The gate fails before its second link, while the first one is parked.
empty serve --device d --port 8080 --workers 1 | 9 am: network fault | -
: 2
2 | parked | POST /v1/tick HTTP/1.1\r\nAM-Key: sys\r\nContent-Length: 2\r\n\r\n{}POST /v1/tick HTTP/1.1\r\nAM-Key: sys\r\nContent-Length: 2\r\n\r\n{} -> -
- | left | POST /v1/tick HTTP/1.1\r\nAM-Key: sys\r\nContent-Length: 2\r\n\r\n{} -> -
# A read and a write fail after a rest.
empty serve --device d --port 8080 --workers 1 | 0 - | history 4 served 3\n
: -
2 | input 61 | POST /v1/tick HTTP/1.1\r\nAM-Key: sys\r\nContent-Length: 2\r\n\r\n{}POST /v1/tick HTTP/1.1\r\nAM-Key: sys\r\nContent-Length: 2\r\n\r\n{} -> HTTP/1.1 200 OK\r\nContent-Type: application/json\r\nContent-Length: 2\r\nAM-At: 0\r\nAM-Stored: 1\r\n\r\n{}
2 | output 99 | POST /v1/tick HTTP/1.1\r\nAM-Key: sys\r\nContent-Length: 2\r\n\r\n{}POST /v1/tick HTTP/1.1\r\nAM-Key: sys\r\nContent-Length: 2\r\n\r\n{} -> HTTP/1.1 200 OK\r\nContent-Type: application/json\r\nContent-Length: 2\r\nAM-At: 1\r\nAM-Stored: 1\r\n\r\n{}HT
1 2 | none | POST /v1/tick HTTP/1.1\r\nAM-Key: sys\r\nContent-Length: 2\r\n\r\n{} -> HTTP/1.1 200 OK\r\nContent-Type: application/json\r\nContent-Length: 2\r\nAM-At: 3\r\nAM-Stored: 1\r\n\r\n{}"#;
