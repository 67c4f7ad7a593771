//! The JSON of lines.
use crate::checking::same;
use fare_json::json_of;
use serde_json::Value;
use std::alloc::Global;

// Whether lines have this JSON, and another reader reads it as what it reads of this one.
fn has_json(alloc: Global, lines: &[u8], wanted: &str) -> Option<bool> {
    let json = json_of(alloc, lines).ok()?;
    let read = Value::from_str(alloc, std::str::from_utf8(&json).ok()?).ok()?;
    let meant = Value::from_str(alloc, wanted).ok()?;
    Some(json.as_slice() == wanted.as_bytes() && read == meant)
}

// Each line that the commands over stores write.
#[test]
fn each_line_has_an_object(rt: HostRuntime) {
    const CASES: [(&[u8], &str); 16] = [
        (b"", "[]"),
        (
            b"upto 4294967295 7\n",
            r#"[{"kind":"upto","device":4294967295,"link":7}]"#,
        ),
        (
            b"lane 65535 2 taken 3 closed 100000 rows 4 statements 5\n",
            r#"[{"kind":"lane","owner":65535,"device":2,"taken":3,"closed":100000,"rows":4,"statements":5,"retired":false,"from":null}]"#,
        ),
        (
            b"lane 1 2 taken 6 closed 19744 rows 0 statements 0 from 19737\n",
            r#"[{"kind":"lane","owner":1,"device":2,"taken":6,"closed":19744,"rows":0,"statements":0,"from":19737,"retired":false}]"#,
        ),
        (
            b"lane 1 2 taken 6 closed 19744 rows 0 statements 0 from 19737 retired\n",
            r#"[{"kind":"lane","owner":1,"device":2,"taken":6,"closed":19744,"rows":0,"statements":0,"from":19737,"retired":true}]"#,
        ),
        (
            b"lane 1 2 taken 0 closed none rows 0 statements 0 retired\n",
            r#"[{"kind":"lane","owner":1,"device":2,"taken":0,"closed":null,"rows":0,"statements":0,"retired":true,"from":null}]"#,
        ),
        (
            b"bill 1 19723 2 18446744073709551615\naccount 1 77 4 525\naccount 2 0 1 0\nshort 9\n",
            r#"[{"kind":"bill","owner":1,"day":19723,"accounts":2,"total":18446744073709551615},{"kind":"account","product":1,"token":77,"rides":4,"amount":525},{"kind":"account","product":2,"token":0,"rides":1,"amount":0},{"kind":"short","device":9}]"#,
        ),
        (
            b"settlement 1 19723 1\noperator 1 2 350\nroute 7 1 175\n",
            r#"[{"kind":"settlement","owner":1,"day":19723,"operators":1},{"kind":"operator","operator":1,"taps":2,"amount":350},{"kind":"route","route":7,"taps":1,"amount":175}]"#,
        ),
        (
            b"close 1 2 19723: closed 2 19723\n",
            r#"[{"kind":"close","owner":1,"device":2,"day":19723,"refused":null}]"#,
        ),
        (
            b"close 1 2 19723: refused CountsShort 3 2\n",
            r#"[{"kind":"close","owner":1,"device":2,"day":19723,"refused":"CountsShort","stated":3,"taken":2}]"#,
        ),
        (
            b"close 1 2 19723: refused CountsOver 1 2\n",
            r#"[{"kind":"close","owner":1,"device":2,"day":19723,"refused":"CountsOver","stated":1,"taken":2}]"#,
        ),
        (b"retired 3\n", r#"[{"kind":"retired","device":3}]"#),
        (
            b"refused UnknownOwner\n",
            r#"[{"kind":"refused","why":"UnknownOwner"}]"#,
        ),
        (
            b"refused NotClosed 3\n",
            r#"[{"kind":"refused","why":"NotClosed","device":3}]"#,
        ),
        (b"refused Words\n", r#"[{"kind":"refused","why":"Words"}]"#),
        (
            b"short 1\nshort 2",
            r#"[{"kind":"short","device":1},{"kind":"short","device":2}]"#,
        ),
    ];
    for (lines, wanted) in CASES {
        same(&rt, &has_json(rt.alloc(), lines, wanted), &Some(true));
    }
}

// What no answer holds has a JSON too: another keyword is its kind alone, a word where a number belongs is a string, one
// that is missing has no member, and one that is no text is null.
#[test]
fn other_lines_have_an_object_too(rt: HostRuntime) {
    const CASES: [(&[u8], &str); 6] = [
        (b"\n\nother 1 2\n\n", r#"[{"kind":"other"}]"#),
        (b"upto x\n", r#"[{"kind":"upto","device":"x"}]"#),
        (
            b"upto 01 \"\\\n",
            r#"[{"kind":"upto","device":"01","link":"\"\\"}]"#,
        ),
        (b"short \xff\n", r#"[{"kind":"short","device":null}]"#),
        (b" : \n", "[{}]"),
        (b"short 1 2 3\n", r#"[{"kind":"short","device":1}]"#),
    ];
    for (lines, wanted) in CASES {
        same(&rt, &has_json(rt.alloc(), lines, wanted), &Some(true));
    }
}
