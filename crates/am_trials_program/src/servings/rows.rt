//! Servings: the device file `d` and the words; the status and the line on the errors; and the output. Then each gate
//! after `: `, with the number of its call of `accept` that fails, or `-`. Then its links: which end of it fails, and
//! at which of its calls, or `none`; `left` is one that isn't served. Then what comes over it, and what it took. `\r\n`
//! stands for the end of a line, and `-` for nothing.

/// The servings, each after a line that begins with `# ` and says what it shows.
pub const SERVINGS: &str = r#"# Each link is answered by itself.
empty serve --device d --port 8080 --workers 1 | 0 - | history 0 served 2\n
: -
none | POST /v1/query HTTP/1.1\r\nAM-Key: k1\r\nContent-Length: 45\r\n\r\n{"intent":{"action":"a.X"},"kind":"activity"} -> HTTP/1.1 200 OK\r\nContent-Type: application/json\r\nContent-Length: 17\r\nAM-At: 0\r\nAM-Stored: 0\r\n\r\n{"components":[]}
none | POST /v1/query HTTP/1.1\r\nAM-Key: k1\r\nContent-Length: 45\r\n\r\n{"intent":{"action":"a.X"},"kind":"activity"} -> HTTP/1.1 200 OK\r\nContent-Type: application/json\r\nContent-Length: 17\r\nAM-At: 0\r\nAM-Stored: 0\r\n\r\n{"components":[]}
# As many links as a worker may serve.
empty serve --device d --port 8080 --workers 1 --connections 2 | 0 - | history 0 served 2\n
: -
none | POST /v1/query HTTP/1.1\r\nAM-Key: k1\r\nContent-Length: 45\r\n\r\n{"intent":{"action":"a.X"},"kind":"activity"} -> HTTP/1.1 200 OK\r\nContent-Type: application/json\r\nContent-Length: 17\r\nAM-At: 0\r\nAM-Stored: 0\r\n\r\n{"components":[]}
none | POST /v1/query HTTP/1.1\r\nAM-Key: k1\r\nContent-Length: 45\r\n\r\n{"intent":{"action":"a.X"},"kind":"activity"} -> HTTP/1.1 200 OK\r\nContent-Type: application/json\r\nContent-Length: 17\r\nAM-At: 0\r\nAM-Stored: 0\r\n\r\n{"components":[]}
# A link is left.
empty serve --device d --port 8080 --workers 1 --connections 1 | 0 - | history 0 served 1\n
: -
none | POST /v1/query HTTP/1.1\r\nAM-Key: k1\r\nContent-Length: 45\r\n\r\n{"intent":{"action":"a.X"},"kind":"activity"} -> HTTP/1.1 200 OK\r\nContent-Type: application/json\r\nContent-Length: 17\r\nAM-At: 0\r\nAM-Stored: 0\r\n\r\n{"components":[]}
left | POST /v1/query HTTP/1.1\r\nAM-Key: k1\r\nContent-Length: 45\r\n\r\n{"intent":{"action":"a.X"},"kind":"activity"} -> -
# A gate fails at once, and the other one serves its link.
empty serve --device d --port 8080 --workers 2 | 9 am: network fault | -
: 1
left | POST /v1/query HTTP/1.1\r\nAM-Key: k1\r\nContent-Length: 45\r\n\r\n{"intent":{"action":"a.X"},"kind":"activity"} -> -
: -
none | POST /v1/query HTTP/1.1\r\nAM-Key: k1\r\nContent-Length: 45\r\n\r\n{"intent":{"action":"a.X"},"kind":"activity"} -> HTTP/1.1 200 OK\r\nContent-Type: application/json\r\nContent-Length: 17\r\nAM-At: 0\r\nAM-Stored: 0\r\n\r\n{"components":[]}
# A gate fails behind its first link.
empty serve --device d --port 8080 --workers 2 | 9 am: network fault | -
: -
none | POST /v1/query HTTP/1.1\r\nAM-Key: k1\r\nContent-Length: 45\r\n\r\n{"intent":{"action":"a.X"},"kind":"activity"} -> HTTP/1.1 200 OK\r\nContent-Type: application/json\r\nContent-Length: 17\r\nAM-At: 0\r\nAM-Stored: 0\r\n\r\n{"components":[]}
none | POST /v1/query HTTP/1.1\r\nAM-Key: k1\r\nContent-Length: 45\r\n\r\n{"intent":{"action":"a.X"},"kind":"activity"} -> HTTP/1.1 200 OK\r\nContent-Type: application/json\r\nContent-Length: 17\r\nAM-At: 0\r\nAM-Stored: 0\r\n\r\n{"components":[]}
: 2
none | POST /v1/query HTTP/1.1\r\nAM-Key: k1\r\nContent-Length: 45\r\n\r\n{"intent":{"action":"a.X"},"kind":"activity"} -> HTTP/1.1 200 OK\r\nContent-Type: application/json\r\nContent-Length: 17\r\nAM-At: 0\r\nAM-Stored: 0\r\n\r\n{"components":[]}
left | POST /v1/query HTTP/1.1\r\nAM-Key: k1\r\nContent-Length: 45\r\n\r\n{"intent":{"action":"a.X"},"kind":"activity"} -> -
# A link that is cut, one that is refused, one whose read fails and one whose write fails, one that closes and an empty one: each ends alone.
empty serve --device d --port 8080 --workers 1 | 0 - | history 5 served 7\n
: -
none | POST /v1/tick HTTP/1.1\r\nAM-Key: sys\r\nContent-Length: 2\r\n\r\n{}POST -> HTTP/1.1 200 OK\r\nContent-Type: application/json\r\nContent-Length: 2\r\nAM-At: 0\r\nAM-Stored: 1\r\n\r\n{}
none | POST /v1/tick HTTP/1.1\r\nAM-Key: sys\r\nContent-Length: 2\r\n\r\n{}POST\r\n\r\n -> HTTP/1.1 200 OK\r\nContent-Type: application/json\r\nContent-Length: 2\r\nAM-At: 1\r\nAM-Stored: 1\r\n\r\n{}HTTP/1.1 400 Bad Request\r\nContent-Type: application/json\r\nContent-Length: 20\r\n\r\n{"error":"bad_head"}
input 10 | POST /v1/tick HTTP/1.1\r\nAM-Key: sys\r\nContent-Length: 2\r\n\r\n{}POST /v1/tick HTTP/1.1\r\nAM-Key: sys\r\nContent-Length: 2\r\n\r\n{} -> HTTP/1.1 200 OK\r\nContent-Type: application/json\r\nContent-Length: 2\r\nAM-At: 2\r\nAM-Stored: 1\r\n\r\n{}
output 2 | POST /v1/tick HTTP/1.1\r\nAM-Key: sys\r\nContent-Length: 2\r\n\r\n{} -> HTTP/1.
none | GET /v1/none HTTP/1.0\r\n\r\nno frame -> HTTP/1.1 404 Not Found\r\nContent-Type: application/json\r\nContent-Length: 20\r\n\r\n{"error":"no_route"}
none | - -> -
none | POST /v1/tick HTTP/1.1\r\nAM-Key: sys\r\nContent-Length: 2\r\n\r\n{} -> HTTP/1.1 200 OK\r\nContent-Type: application/json\r\nContent-Length: 2\r\nAM-At: 4\r\nAM-Stored: 1\r\n\r\n{}
# The desk has its number in the history.
empty serve --device d --port 8080 --workers 1 | 0 - | history 1 served 2\n
: -
none | POST /v1/tick HTTP/1.1\r\nAM-Key: sys\r\nContent-Length: 2\r\n\r\n{} -> HTTP/1.1 200 OK\r\nContent-Type: application/json\r\nContent-Length: 2\r\nAM-At: 0\r\nAM-Stored: 1\r\n\r\n{}
none | POST /v1/history HTTP/1.1\r\nAM-Key: sys\r\nContent-Length: 10\r\n\r\n{"from":0} -> HTTP/1.1 200 OK\r\nContent-Type: application/json\r\nContent-Length: 114\r\nAM-At: 1\r\nAM-Stored: 0\r\n\r\n{"entries":[{"at":0,"desk":0,"kept":true,"now":0,"request":{},"route":"/v1/tick","uid":1000,"weight":2}],"from":0}
# The clock stands at the moment of the words.
empty serve --device d --port 8080 --workers 1 --at 7 | 0 - | history 2 served 1\n
: -
none | POST /v1/tick HTTP/1.1\r\nAM-Key: sys\r\nContent-Length: 2\r\n\r\n{}POST /v1/tick HTTP/1.1\r\nAM-Key: sys\r\nContent-Length: 2\r\n\r\n{}POST /v1/history HTTP/1.1\r\nAM-Key: sys\r\nContent-Length: 10\r\n\r\n{"from":0} -> HTTP/1.1 200 OK\r\nContent-Type: application/json\r\nContent-Length: 2\r\nAM-At: 0\r\nAM-Stored: 1\r\n\r\n{}HTTP/1.1 200 OK\r\nContent-Type: application/json\r\nContent-Length: 2\r\nAM-At: 1\r\nAM-Stored: 1\r\n\r\n{}HTTP/1.1 200 OK\r\nContent-Type: application/json\r\nContent-Length: 206\r\nAM-At: 2\r\nAM-Stored: 0\r\n\r\n{"entries":[{"at":0,"desk":0,"kept":true,"now":7,"request":{},"route":"/v1/tick","uid":1000,"weight":2},{"at":1,"desk":0,"kept":true,"now":7,"request":{},"route":"/v1/tick","uid":1000,"weight":2}],"from":0}
# The second of three gates has the second desk.
empty serve --device d --port 8080 --workers 3 | 0 - | history 1 served 2\n
: -
: -
none | POST /v1/tick HTTP/1.1\r\nAM-Key: sys\r\nContent-Length: 2\r\n\r\n{} -> HTTP/1.1 200 OK\r\nContent-Type: application/json\r\nContent-Length: 2\r\nAM-At: 0\r\nAM-Stored: 1\r\n\r\n{}
none | POST /v1/history HTTP/1.1\r\nAM-Key: sys\r\nContent-Length: 10\r\n\r\n{"from":0} -> HTTP/1.1 200 OK\r\nContent-Type: application/json\r\nContent-Length: 114\r\nAM-At: 1\r\nAM-Stored: 0\r\n\r\n{"entries":[{"at":0,"desk":1,"kept":true,"now":0,"request":{},"route":"/v1/tick","uid":1000,"weight":2}],"from":0}
: -"#;

/// A serving that installs a package.
pub const KEEPING: &str =
    r#"bare serve --device d --port 8080 --workers 1 --store q | 0 - | history 1 served 1\n
: -
none | POST /v1/install HTTP/1.1\r\nAM-Key: sys\r\nContent-Length: 43\r\n\r\n{"key":"kb","manifest":"package = 'com.b'"} -> HTTP/1.1 200 OK\r\nContent-Type: application/json\r\nContent-Length: 13\r\nAM-At: 0\r\nAM-Stored: 1\r\n\r\n{"uid":10000}"#;
