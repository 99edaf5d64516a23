//! Eight states as eight planes of bits, and the steps of the cipher on all of them at once. Written by
//! gen/planes.py.
//!
//! No step reads memory at a place, or takes a branch, that depends on a bit of a plane.

ghost use Rattle.std.specs.Prelude.{◌≡◌, ℕ, ◌+◌, ◌-◌, ◌*◌, ◌/◌, ◌%◌, ◌<◌, ◌==◌, if◌then◌else◌, bit_xor, bit_and, nat_lt, slice_index};
ghost use Rattle.std.specs.Int.{bit_at};
ghost use Rattle.st_aes.specs.Cipher.{add, sub_bytes, shift_rows, mix_columns};
ghost use Rattle.st_aes.specs.Planes.{bit, plane, bits, state_at, row_turned, column_turned, changed_low, changed_high};
ghost use Rattle.st_aes.specs.SBox.{factors, quarter, quarter_inverse, products, sums};

use std::simd::u8x16;

/// Eight planes: bit 0 of each byte, bit 1, and so on.
pub(crate) type Planes = [u8x16; 8];

#[inline(always)]
fn xor(a: u8x16, b: u8x16) -> u8x16
    ensures { (l j : ℕ) → l < 16 → bit result l j ≡ bit_xor (bit a l j) (bit b l j) }
{
    a ^ b
}

#[inline(always)]
fn and(a: u8x16, b: u8x16) -> u8x16
    ensures { (l j : ℕ) → l < 16 → bit result l j ≡ bit_and (bit a l j) (bit b l j) }
{
    a & b
}

#[inline(always)]
fn not(a: u8x16) -> u8x16
    ensures { (l j : ℕ) → l < 16 → j < 8 → bit result l j ≡ bit_xor (bit a l j) 1 }
{
    a ^ u8x16::splat(255)
}

// ---- SubBytes, by the circuit of specs/SBox.antt

#[inline(always)]
fn factors(q: Planes) -> [u8x16; 22]
    ensures { (l j : ℕ) → l < 16 → bits 22 result l j ≡ factors (bits 8 q l j) }
{
    let [x7, x6, x5, x4, x3, x2, x1, x0] = q;
    let y14 = xor(x3, x5);
    let y13 = xor(x0, x6);
    let y9 = xor(x0, x3);
    let y8 = xor(x0, x5);
    let t0 = xor(x1, x2);
    let y1 = xor(t0, x7);
    let y4 = xor(y1, x3);
    let y12 = xor(y13, y14);
    let y2 = xor(y1, x0);
    let y5 = xor(y1, x6);
    let y3 = xor(y5, y8);
    let t1 = xor(x4, y12);
    let y15 = xor(t1, x5);
    let y20 = xor(t1, x1);
    let y6 = xor(y15, x7);
    let y10 = xor(y15, t0);
    let y11 = xor(y20, y9);
    let y7 = xor(x7, y11);
    let y17 = xor(y10, y11);
    let y19 = xor(y10, y8);
    let y16 = xor(t0, y11);
    let y21 = xor(y13, y16);
    let y18 = xor(x0, y16);
    [
        y15, y6, x7, y16, y1, y7, y11, y17, y10, y12, y3, y4, y13, y5, y2, y9, y14, y8, y18, y19,
        y20, y21,
    ]
}

#[inline(always)]
fn quarter(y: [u8x16; 22]) -> [u8x16; 4]
    ensures { (l j : ℕ) → l < 16 → bits 4 result l j ≡ quarter (bits 22 y l j) }
{
    let [
        y15,
        y6,
        x7,
        y16,
        y1,
        y7,
        y11,
        y17,
        y10,
        y12,
        y3,
        y4,
        y13,
        y5,
        y2,
        y9,
        y14,
        y8,
        y18,
        y19,
        y20,
        y21,
    ] = y;
    let t2 = and(y12, y15);
    let t3 = and(y3, y6);
    let t4 = xor(t3, t2);
    let t5 = and(y4, x7);
    let t6 = xor(t5, t2);
    let t7 = and(y13, y16);
    let t8 = and(y5, y1);
    let t9 = xor(t8, t7);
    let t10 = and(y2, y7);
    let t11 = xor(t10, t7);
    let t12 = and(y9, y11);
    let t13 = and(y14, y17);
    let t14 = xor(t13, t12);
    let t15 = and(y8, y10);
    let t16 = xor(t15, t12);
    let t17 = xor(t4, t14);
    let t18 = xor(t6, t16);
    let t19 = xor(t9, t14);
    let t20 = xor(t11, t16);
    let t21 = xor(t17, y20);
    let t22 = xor(t18, y19);
    let t23 = xor(t19, y21);
    let t24 = xor(t20, y18);
    [t21, t22, t23, t24]
}

#[inline(always)]
fn quarter_inverse(t: [u8x16; 4]) -> [u8x16; 9]
    ensures { (l j : ℕ) → l < 16 → bits 9 result l j ≡ quarter_inverse (bits 4 t l j) }
{
    let [t21, t22, t23, t24] = t;
    let t25 = xor(t21, t22);
    let t26 = and(t21, t23);
    let t27 = xor(t24, t26);
    let t28 = and(t25, t27);
    let t29 = xor(t28, t22);
    let t30 = xor(t23, t24);
    let t31 = xor(t22, t26);
    let t32 = and(t31, t30);
    let t33 = xor(t32, t24);
    let t34 = xor(t23, t33);
    let t35 = xor(t27, t33);
    let t36 = and(t24, t35);
    let t37 = xor(t36, t34);
    let t38 = xor(t27, t36);
    let t39 = and(t29, t38);
    let t40 = xor(t25, t39);
    let t41 = xor(t40, t37);
    let t42 = xor(t29, t33);
    let t43 = xor(t29, t40);
    let t44 = xor(t33, t37);
    let t45 = xor(t42, t41);
    [t29, t33, t37, t40, t41, t42, t43, t44, t45]
}

#[inline(always)]
fn products(y: [u8x16; 22], t: [u8x16; 9]) -> [u8x16; 18]
    ensures { (l j : ℕ) → l < 16 → bits 18 result l j ≡ products (bits 22 y l j) (bits 9 t l j) }
{
    let [
        y15,
        y6,
        x7,
        y16,
        y1,
        y7,
        y11,
        y17,
        y10,
        y12,
        y3,
        y4,
        y13,
        y5,
        y2,
        y9,
        y14,
        y8,
        _,
        _,
        _,
        _,
    ] = y;
    let [t29, t33, t37, t40, t41, t42, t43, t44, t45] = t;
    let z0 = and(t44, y15);
    let z1 = and(t37, y6);
    let z2 = and(t33, x7);
    let z3 = and(t43, y16);
    let z4 = and(t40, y1);
    let z5 = and(t29, y7);
    let z6 = and(t42, y11);
    let z7 = and(t45, y17);
    let z8 = and(t41, y10);
    let z9 = and(t44, y12);
    let z10 = and(t37, y3);
    let z11 = and(t33, y4);
    let z12 = and(t43, y13);
    let z13 = and(t40, y5);
    let z14 = and(t29, y2);
    let z15 = and(t42, y9);
    let z16 = and(t45, y14);
    let z17 = and(t41, y8);
    [
        z0, z1, z2, z3, z4, z5, z6, z7, z8, z9, z10, z11, z12, z13, z14, z15, z16, z17,
    ]
}

#[inline(always)]
fn sums(z: [u8x16; 18]) -> Planes
    ensures { (l j : ℕ) → l < 16 → j < 8 → bits 8 result l j ≡ sums (bits 18 z l j) }
{
    let [
        z0,
        z1,
        z2,
        z3,
        z4,
        z5,
        z6,
        z7,
        z8,
        z9,
        z10,
        z11,
        z12,
        z13,
        z14,
        z15,
        z16,
        z17,
    ] = z;
    let t46 = xor(z15, z16);
    let t47 = xor(z10, z11);
    let t48 = xor(z5, z13);
    let t49 = xor(z9, z10);
    let t50 = xor(z2, z12);
    let t51 = xor(z2, z5);
    let t52 = xor(z7, z8);
    let t53 = xor(z0, z3);
    let t54 = xor(z6, z7);
    let t55 = xor(z16, z17);
    let t56 = xor(z12, t48);
    let t57 = xor(t50, t53);
    let t58 = xor(z4, t46);
    let t59 = xor(z3, t54);
    let t60 = xor(t46, t57);
    let t61 = xor(z14, t57);
    let t62 = xor(t52, t58);
    let t63 = xor(t49, t58);
    let t64 = xor(z4, t59);
    let t65 = xor(t61, t62);
    let t66 = xor(z1, t63);
    let s0 = xor(t59, t63);
    let s6 = xor(t56, t62);
    let s7 = xor(t48, t60);
    let t67 = xor(t64, t65);
    let s3 = xor(t53, t66);
    let s4 = xor(t51, t66);
    let s5 = xor(t47, t65);
    let s1 = xor(t64, s3);
    let s2 = xor(t55, t67);
    [not(s7), not(s6), s5, s4, s3, not(s2), not(s1), s0]
}

/// SubBytes.
#[inline(always)]
pub(crate) fn substituted(q: Planes) -> Planes
    ensures { (j : ℕ) → j < 8 → state_at result 0 j ≡ sub_bytes (state_at q 0 j) }
{
    let y = factors(q);
    sums(products(y, quarter_inverse(quarter(y))))
}

// ---- ShiftRows and MixColumns

#[inline(always)]
fn rows_shifted(a: u8x16) -> u8x16
    ensures { (l j : ℕ) → l < 16 → bit result l j ≡ bit a (row_turned l) j }
{
    a.swizzle([0, 5, 10, 15, 4, 9, 14, 3, 8, 13, 2, 7, 12, 1, 6, 11])
}

/// ShiftRows.
#[inline(always)]
pub(crate) fn shifted(q: Planes) -> Planes
    ensures { (j : ℕ) → j < 8 → state_at result 0 j ≡ shift_rows (state_at q 0 j) }
{
    let [q0, q1, q2, q3, q4, q5, q6, q7] = q;
    [
        rows_shifted(q0),
        rows_shifted(q1),
        rows_shifted(q2),
        rows_shifted(q3),
        rows_shifted(q4),
        rows_shifted(q5),
        rows_shifted(q6),
        rows_shifted(q7),
    ]
}

#[inline(always)]
fn one_down(a: u8x16) -> u8x16
    ensures { (l j : ℕ) → l < 16 → bit result l j ≡ bit a (column_turned 1 l) j }
{
    a.swizzle([1, 2, 3, 0, 5, 6, 7, 4, 9, 10, 11, 8, 13, 14, 15, 12])
}

#[inline(always)]
fn two_down(a: u8x16) -> u8x16
    ensures { (l j : ℕ) → l < 16 → bit result l j ≡ bit a (column_turned 2 l) j }
{
    a.swizzle([2, 3, 0, 1, 6, 7, 4, 5, 10, 11, 8, 9, 14, 15, 12, 13])
}

/// MixColumns: two times the sum of a row and the one below it, and the three rows below.
#[inline(always)]
pub(crate) fn mixed(q: Planes) -> Planes
    ensures { (j : ℕ) → j < 8 → state_at result 0 j ≡ mix_columns (state_at q 0 j) }
{
    let [a0, a1, a2, a3, a4, a5, a6, a7] = q;
    let r0 = one_down(a0);
    let r1 = one_down(a1);
    let r2 = one_down(a2);
    let r3 = one_down(a3);
    let r4 = one_down(a4);
    let r5 = one_down(a5);
    let r6 = one_down(a6);
    let r7 = one_down(a7);
    let t0 = xor(a0, r0);
    let t1 = xor(a1, r1);
    let t2 = xor(a2, r2);
    let t3 = xor(a3, r3);
    let t4 = xor(a4, r4);
    let t5 = xor(a5, r5);
    let t6 = xor(a6, r6);
    let t7 = xor(a7, r7);
    let d0 = two_down(t0);
    let d1 = two_down(t1);
    let d2 = two_down(t2);
    let d3 = two_down(t3);
    let d4 = two_down(t4);
    let d5 = two_down(t5);
    let d6 = two_down(t6);
    let d7 = two_down(t7);
    let u0 = xor(r0, d0);
    let u1 = xor(r1, d1);
    let u2 = xor(r2, d2);
    let u3 = xor(r3, d3);
    let u4 = xor(r4, d4);
    let u5 = xor(r5, d5);
    let u6 = xor(r6, d6);
    let u7 = xor(r7, d7);
    let v0 = xor(t0, t7);
    let v2 = xor(t2, t7);
    let v3 = xor(t3, t7);
    [
        xor(u0, t7),
        xor(u1, v0),
        xor(u2, t1),
        xor(u3, v2),
        xor(u4, v3),
        xor(u5, t4),
        xor(u6, t5),
        xor(u7, t6),
    ]
}

/// AddRoundKey, with a key in planes.
#[inline(always)]
pub(crate) fn added(q: Planes, k: Planes) -> Planes
    ensures { (j : ℕ) → j < 8 → state_at result 0 j ≡ add (state_at q 0 j) (state_at k 0 j) }
{
    let [q0, q1, q2, q3, q4, q5, q6, q7] = q;
    let [k0, k1, k2, k3, k4, k5, k6, k7] = k;
    [
        xor(q0, k0),
        xor(q1, k1),
        xor(q2, k2),
        xor(q3, k3),
        xor(q4, k4),
        xor(q5, k5),
        xor(q6, k6),
        xor(q7, k7),
    ]
}

// ---- bytes into planes and back

#[inline(always)]
fn and_byte(a: u8x16, m: u8) -> u8x16
    ensures { (l j : ℕ) → l < 16 → bit result l j ≡ bit_and (bit a l j) (bit_at m j) }
{
    a & u8x16::splat(m)
}

#[inline(always)]
fn right_1(a: u8x16) -> u8x16
    ensures { (l j : ℕ) → l < 16 → bit result l j ≡ bit a l (1 + j) }
{
    a >> u8x16::splat(1)
}

#[inline(always)]
fn left_1(a: u8x16) -> u8x16
    ensures { (l j : ℕ) → l < 16 → j < 8 → bit result l j ≡ (if nat_lt j 1 then 0 else bit a l (j - 1)) }
{
    a << u8x16::splat(1)
}

/// Exchanges the bits of `a` at the places that have 1 in them with those of `b` 1 places lower.
#[inline(always)]
fn change_1(a: u8x16, b: u8x16) -> (u8x16, u8x16)
    ensures first { (l j : ℕ) → l < 16 → j < 8 → bit result.0 l j ≡ changed_low a b 1 l j }
    ensures second { (l j : ℕ) → l < 16 → j < 8 → bit result.1 l j ≡ changed_high a b 1 l j }
{
    let moved = right_1(a);
    let sum = xor(moved, b);
    let t = and_byte(sum, 0x55);
    let back = left_1(t);
    (xor(a, back), xor(b, t))
}

#[inline(always)]
fn right_2(a: u8x16) -> u8x16
    ensures { (l j : ℕ) → l < 16 → bit result l j ≡ bit a l (2 + j) }
{
    a >> u8x16::splat(2)
}

#[inline(always)]
fn left_2(a: u8x16) -> u8x16
    ensures { (l j : ℕ) → l < 16 → j < 8 → bit result l j ≡ (if nat_lt j 2 then 0 else bit a l (j - 2)) }
{
    a << u8x16::splat(2)
}

/// Exchanges the bits of `a` at the places that have 2 in them with those of `b` 2 places lower.
#[inline(always)]
fn change_2(a: u8x16, b: u8x16) -> (u8x16, u8x16)
    ensures first { (l j : ℕ) → l < 16 → j < 8 → bit result.0 l j ≡ changed_low a b 2 l j }
    ensures second { (l j : ℕ) → l < 16 → j < 8 → bit result.1 l j ≡ changed_high a b 2 l j }
{
    let moved = right_2(a);
    let sum = xor(moved, b);
    let t = and_byte(sum, 0x33);
    let back = left_2(t);
    (xor(a, back), xor(b, t))
}

#[inline(always)]
fn right_4(a: u8x16) -> u8x16
    ensures { (l j : ℕ) → l < 16 → bit result l j ≡ bit a l (4 + j) }
{
    a >> u8x16::splat(4)
}

#[inline(always)]
fn left_4(a: u8x16) -> u8x16
    ensures { (l j : ℕ) → l < 16 → j < 8 → bit result l j ≡ (if nat_lt j 4 then 0 else bit a l (j - 4)) }
{
    a << u8x16::splat(4)
}

/// Exchanges the bits of `a` at the places that have 4 in them with those of `b` 4 places lower.
#[inline(always)]
fn change_4(a: u8x16, b: u8x16) -> (u8x16, u8x16)
    ensures first { (l j : ℕ) → l < 16 → j < 8 → bit result.0 l j ≡ changed_low a b 4 l j }
    ensures second { (l j : ℕ) → l < 16 → j < 8 → bit result.1 l j ≡ changed_high a b 4 l j }
{
    let moved = right_4(a);
    let sum = xor(moved, b);
    let t = and_byte(sum, 0x0f);
    let back = left_4(t);
    (xor(a, back), xor(b, t))
}

/// The same vector, with the clause that its lanes are bytes.
#[inline(always)]
pub(crate) fn of_bytes(a: u8x16) -> u8x16
    ensures same { result ≡ a }
    ensures bytes { (l : ℕ) → slice_index result l < 256 }
{
    a
}

/// Bit `b` of vector `i` becomes bit `i` of vector `b`.
#[inline(always)]
pub(crate) fn transposed(v: Planes) -> Planes
    ensures bits { (b l j : ℕ) → b < 8 → l < 16 → j < 8 → bit (plane result b) l j ≡ bit (plane v j) l b }
    ensures bytes { (b l : ℕ) → b < 8 → slice_index (plane result b) l < 256 }
{
    let [a0, a1, a2, a3, a4, a5, a6, a7] = v;
    let (a0, a1) = change_1(a0, a1);
    let (a2, a3) = change_1(a2, a3);
    let (a4, a5) = change_1(a4, a5);
    let (a6, a7) = change_1(a6, a7);
    let (a0, a2) = change_2(a0, a2);
    let (a1, a3) = change_2(a1, a3);
    let (a4, a6) = change_2(a4, a6);
    let (a5, a7) = change_2(a5, a7);
    let (a0, a4) = change_4(a0, a4);
    let (a1, a5) = change_4(a1, a5);
    let (a2, a6) = change_4(a2, a6);
    let (a3, a7) = change_4(a3, a7);
    [
        of_bytes(a0),
        of_bytes(a1),
        of_bytes(a2),
        of_bytes(a3),
        of_bytes(a4),
        of_bytes(a5),
        of_bytes(a6),
        of_bytes(a7),
    ]
}
