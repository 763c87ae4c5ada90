use bson_splice::writing::{close, put, put_name};
use bson_tree::types;

// The first example of bsonspec.org: {"hello": "world"}.
#[test]
fn the_hello_world_document_is_put_piece_by_piece(rt: HostRuntime) {
    let mut out = [0xAA; 24];
    let named = put_name(&mut out, 4, types::STRING, b"hello");
    let end = put(&mut out, named, b"\x06\x00\x00\x00world\x00");
    let behind = close(&mut out, 0, end);
    assert!(rt; behind == 22);
    let bytes = b"\x16\x00\x00\x00\x02hello\x00\x06\x00\x00\x00world\x00\x00";
    assert!(rt; &out[..22] == bytes.as_slice());
    assert!(rt; &out[22..] == b"\xAA\xAA".as_slice());
}
