// The worked examples of the published cipher's parts.

use crate::by_field::{ByField, theta};
use crate::field::product;
use crate::keys::round_keys;
use crate::sbox::substitute;
use cipher::bytes_of;

#[test]
fn box_of_bytes(rt: HostRuntime) {
    assert_eq!(rt; substitute(0x00), 0xBA);
    assert_eq!(rt; substitute(0xBA), 0x00);
    assert_eq!(rt; substitute(0x07), 0x4D);
}

#[test]
fn product_in_the_field(rt: HostRuntime) {
    assert_eq!(rt; product(0x02, 0x80), 0x1D);
}

#[test]
fn theta_there_and_back(rt: HostRuntime) {
    let one = [0x01, 0, 0, 0, 0, 0, 0, 0];
    let row = [0x01, 0x03, 0x04, 0x05, 0x06, 0x08, 0x0B, 0x07];
    assert_eq!(rt; theta(one), row);
    assert_eq!(rt; theta(row), one);
}

#[test]
fn first_round_key_of_zeros(rt: HostRuntime) {
    let keys = round_keys::<ByField>([0; 16]);
    assert_eq!(rt;
        bytes_of(keys[0]),
        [0x00, 0xEE, 0x95, 0xCE, 0xE9, 0x69, 0x68, 0xF7]
    );
}
