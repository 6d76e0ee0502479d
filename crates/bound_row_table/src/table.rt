// The constant table of document 02, requests 05 and 08: high and low rows of degrees 2 to 5, 810 entries.
ghost use Rattle.std.specs.Prelude.{◌≡◌};
ghost use Rattle.bound_rows.specs.Table.{table};

// By degree, 2 to 5, then by the number of pieces, 1 to 8, or 3 to 8 for degrees 4 and 5, then by second difference:
// the high row, then the low row.
const TABLE: [i16; 810] = [
    0, // degree 2, m 1, high
    0, -2500, // degree 2, m 1, low
    -2500, 0, // degree 2, m 2, high
    -2500, 0, -625, // degree 2, m 2, low
    -3125, -625, 0, // degree 2, m 3, high
    -2222, -2222, 0, -278, // degree 2, m 3, low
    -2500, -2500, -278, 0, // degree 2, m 4, high
    -1875, -2500, -1875, 0, -156, // degree 2, m 4, low
    -2032, -2656, -2032, -156, 0, // degree 2, m 5, high
    -1600, -2400, -2400, -1600, 0, -100, // degree 2, m 5, low
    -1700, -2500, -2500, -1700, -100, 0, // degree 2, m 6, high
    -1388, -2222, -2500, -2222, -1388, 0, -69, // degree 2, m 6, low
    -1459, -2292, -2570, -2292, -1459, -69, 0, // degree 2, m 7, high
    -1224, -2040, -2448, -2448, -2040, -1224, 0, -51, // degree 2, m 7, low
    -1276, -2092, -2500, -2500, -2092, -1276, -51, 0, // degree 2, m 8, high
    -1093, -1875, -2343, -2500, -2343, -1875, -1093, 0, -39, // degree 2, m 8, low
    -1133, -1914, -2383, -2539, -2383, -1914, -1133, -39, 0, // degree 3, m 1, difference 0, high
    0, -5000, // degree 3, m 1, difference 0, low
    -2500, 0, // degree 3, m 1, difference 1, high
    0, -2500, // degree 3, m 1, difference 1, low
    -5000, 0, // degree 3, m 2, difference 0, high
    -3750, 0, -1872, // degree 3, m 2, difference 0, low
    -4722, -71, 0, // degree 3, m 2, difference 1, high
    -3750, 0, -71, // degree 3, m 2, difference 1, low
    -4722, -1872, 0, // degree 3, m 3, difference 0, high
    -3703, -2962, 0, -696, // degree 3, m 3, difference 0, low
    -4400, -3155, -88, 0, // degree 3, m 3, difference 1, high
    -2962, -3703, 0, -88, // degree 3, m 3, difference 1, low
    -3155, -4400, -696, 0, // degree 3, m 4, difference 0, high
    -3281, -3750, -2343, 0, -468, // degree 3, m 4, difference 0, low
    -3636, -3985, -2465, -9, 0, // degree 3, m 4, difference 1, high
    -2343, -3750, -3281, 0, -9, // degree 3, m 4, difference 1, low
    -2465, -3985, -3636, -468, 0, // degree 3, m 5, difference 0, high
    -2880, -3840, -3360, -1920, 0, -294, // degree 3, m 5, difference 0, low
    -3127, -4015, -3488, -1976, -8, 0, // degree 3, m 5, difference 1, high
    -1920, -3360, -3840, -2880, 0, -8, // degree 3, m 5, difference 1, low
    -1976, -3488, -4015, -3127, -294, 0, // degree 3, m 6, difference 0, high
    -2546, -3703, -3750, -2962, -1620, 0, -208, // degree 3, m 6, difference 0, low
    -2721, -3843, -3855, -3033, -1656, -3, 0, // degree 3, m 6, difference 1, high
    -1620, -2962, -3750, -3703, -2546, 0, -3, // degree 3, m 6, difference 1, low
    -1656, -3033, -3855, -3843, -2721, -208, 0, // degree 3, m 7, difference 0, high
    -2274, -3498, -3848, -3498, -2623, -1399, 0, -152, // degree 3, m 7, difference 0, low
    -2407, -3607, -3937, -3564, -2669, -1421, -3, 0, // degree 3, m 7, difference 1, high
    -1399, -2623, -3498, -3848, -3498, -2274, 0, -3, // degree 3, m 7, difference 1, low
    -1421, -2669, -3564, -3937, -3607, -2407, -152, 0, // degree 3, m 8, difference 0, high
    -2050, -3281, -3808, -3750, -3222, -2343, -1230, 0, -117, // degree 3, m 8, difference 0, low
    -2154, -3370, -3882, -3809, -3267, -2374, -1246, -1, 0, // degree 3, m 8, difference 1, high
    -1230, -2343, -3222, -3750, -3808, -3281, -2050, 0, -1, // degree 3, m 8, difference 1, low
    -1246, -2374, -3267, -3809, -3882, -3370, -2154, -117, 0, // degree 4, m 3, difference 0, high
    -4691, -3209, 0, -1596, // degree 4, m 3, difference 0, low
    -5456, -3355, 0, 0, // degree 4, m 3, difference 1, high
    -5432, -5432, 0, -133, // degree 4, m 3, difference 1, low
    -6250, -6250, -133, 0, // degree 4, m 3, difference 2, high
    -3209, -4691, 0, 0, // degree 4, m 3, difference 2, low
    -3355, -5456, -1596, 0, // degree 4, m 4, difference 0, high
    -4335, -4375, -2460, 0, -881, // degree 4, m 4, difference 0, low
    -4901, -4582, -2529, 0, 0, // degree 4, m 4, difference 1, high
    -4453, -6250, -4453, 0, -83, // degree 4, m 4, difference 1, low
    -4782, -6800, -4782, -83, 0, // degree 4, m 4, difference 2, high
    -2460, -4375, -4335, 0, 0, // degree 4, m 4, difference 2, low
    -2529, -4582, -4901, -881, 0, // degree 4, m 5, difference 0, high
    -3904, -4704, -3744, -1984, 0, -585, // degree 4, m 5, difference 0, low
    -4297, -4909, -3849, -2000, 0, 0, // degree 4, m 5, difference 1, high
    -3712, -5952, -5952, -3712, 0, -26, // degree 4, m 5, difference 1, low
    -3914, -6253, -6253, -3914, -26, 0, // degree 4, m 5, difference 2, high
    -1984, -3744, -4704, -3904, 0, 0, // degree 4, m 5, difference 2, low
    -2000, -3849, -4909, -4297, -585, 0, // degree 4, m 6, difference 0, high
    -3510, -4691, -4375, -3209, -1658, 0, -400, // degree 4, m 6, difference 0, low
    -3814, -4863, -4489, -3250, -1673, 0, 0, // degree 4, m 6, difference 1, high
    -3163, -5432, -6250, -5432, -3163, 0, -24, // degree 4, m 6, difference 1, low
    -3269, -5643, -6443, -5643, -3269, -24, 0, // degree 4, m 6, difference 2, high
    -1658, -3209, -4375, -4691, -3510, 0, 0, // degree 4, m 6, difference 2, low
    -1673, -3250, -4489, -4863, -3814, -400, 0, // degree 4, m 7, difference 0, high
    -3173, -4539, -4648, -3948, -2790, -1424, 0, -302, // degree 4, m 7, difference 0, low
    -3402, -4692, -4751, -4002, -2817, -1429, 0, 0, // degree 4, m 7, difference 1, high
    -2748, -4914, -6097, -6097, -4914, -2748, 0, -10, // degree 4, m 7, difference 1, low
    -2826, -5045, -6250, -6250, -5045, -2826, -10, 0, // degree 4, m 7, difference 2, high
    -1424, -2790, -3948, -4648, -4539, -3173, 0, 0, // degree 4, m 7, difference 2, low
    -1429, -2817, -4002, -4751, -4692, -3402, -302, 0, // degree 4, m 8, difference 0, high
    -2888, -4335, -4724, -4375, -3552, -2460, -1247, 0, -232, // degree 4, m 8, difference 0, low
    -3070, -4465, -4818, -4431, -3587, -2475, -1252, 0, 0, // degree 4, m 8, difference 1, high
    -2426, -4453, -5786, -6250, -5786, -4453, -2426, 0, -7, // degree 4, m 8, difference 1, low
    -2478, -4546, -5896, -6372, -5896, -4546, -2478, -7, 0, // degree 4, m 8, difference 2, high
    -1247, -2460, -3552, -4375, -4724, -4335, -2888, 0, 0, // degree 4, m 8, difference 2, low
    -1252, -2475, -3587, -4431, -4818, -4465, -3070, -232, 0, // degree 5, m 3, difference 0, high
    -5349, -3292, 0, -2578, // degree 5, m 3, difference 0, low
    -6154, -3337, 0, 0, // degree 5, m 3, difference 1, high
    -7407, -6172, 0, -377, // degree 5, m 3, difference 1, low
    -8918, -6766, 0, 0, // degree 5, m 3, difference 2, high
    -6172, -7407, 0, 0, // degree 5, m 3, difference 2, low
    -6766, -8918, -377, 0, // degree 5, m 3, difference 3, high
    -3292, -5349, 0, 0, // degree 5, m 3, difference 3, low
    -3337, -6154, -2578, 0, // degree 5, m 4, difference 0, high
    -5126, -4687, -2490, 0, -1415, // degree 5, m 4, difference 0, low
    -5846, -4814, -2539, 0, 0, // degree 5, m 4, difference 1, high
    -6298, -7812, -4833, 0, -207, // degree 5, m 4, difference 1, low
    -6968, -8496, -5016, 0, 0, // degree 5, m 4, difference 2, high
    -4833, -7812, -6298, 0, 0, // degree 5, m 4, difference 2, low
    -5016, -8496, -6968, -207, 0, // degree 5, m 4, difference 3, high
    -2490, -4687, -5126, 0, 0, // degree 5, m 4, difference 3, low
    -2539, -4814, -5846, -1415, 0, // degree 5, m 5, difference 0, high
    -4723, -5222, -3897, -1996, 0, -962, // degree 5, m 5, difference 0, low
    -5242, -5416, -3965, -1999, -1, 0, // degree 5, m 5, difference 1, high
    -5350, -7852, -7027, -3929, 0, -68, // degree 5, m 5, difference 1, low
    -5784, -8291, -7357, -4004, 0, 0, // degree 5, m 5, difference 2, high
    -3929, -7027, -7852, -5350, 0, 0, // degree 5, m 5, difference 2, low
    -4004, -7357, -8291, -5784, -68, 0, // degree 5, m 5, difference 3, high
    -1996, -3897, -5222, -4723, 0, -1, // degree 5, m 5, difference 3, low
    -1999, -3965, -5416, -5242, -962, 0, // degree 5, m 6, difference 0, high
    -4314, -5349, -4687, -3292, -1665, 0, -659, // degree 5, m 6, difference 0, low
    -4735, -5532, -4786, -3310, -1671, 0, 0, // degree 5, m 6, difference 1, high
    -4610, -7407, -7812, -6172, -3298, 0, -51, // degree 5, m 6, difference 1, low
    -4855, -7745, -8065, -6344, -3337, 0, 0, // degree 5, m 6, difference 2, high
    -3298, -6172, -7812, -7407, -4610, 0, 0, // degree 5, m 6, difference 2, low
    -3337, -6344, -8065, -7745, -4855, -51, 0, // degree 5, m 6, difference 3, high
    -1665, -3292, -4687, -5349, -4314, 0, 0, // degree 5, m 6, difference 3, low
    -1671, -3310, -4786, -5532, -4735, -659, 0, // degree 5, m 7, difference 0, high
    -3944, -5283, -5105, -4141, -2838, -1427, 0, -495, // degree 5, m 7, difference 0, low
    -4273, -5459, -5205, -4179, -2850, -1429, 0, 0, // degree 5, m 7, difference 1, high
    -4034, -6848, -7925, -7318, -5438, -2838, 0, -26, // degree 5, m 7, difference 1, low
    -4204, -7081, -8143, -7483, -5538, -2858, 0, 0, // degree 5, m 7, difference 2, high
    -2838, -5438, -7318, -7925, -6848, -4034, 0, 0, // degree 5, m 7, difference 2, low
    -2858, -5538, -7483, -8143, -7081, -4204, -26, 0, // degree 5, m 7, difference 3, high
    -1427, -2838, -4141, -5105, -5283, -3944, 0, 0, // degree 5, m 7, difference 3, low
    -1429, -2850, -4179, -5205, -5459, -4273, -495, 0, // degree 5, m 8, difference 0, high
    -3620, -5126, -5296, -4687, -3675, -2490, -1249, 0, -380, // degree 5, m 8, difference 0, low
    -3888, -5284, -5396, -4732, -3699, -2495, -1251, 0, 0, // degree 5, m 8, difference 1, high
    -3578, -6298, -7731, -7812, -6733, -4833, -2488, 0, -19, // degree 5, m 8, difference 1, low
    -3693, -6474, -7902, -7966, -6834, -4893, -2502, 0, 0, // degree 5, m 8, difference 2, high
    -2488, -4833, -6733, -7812, -7731, -6298, -3578, 0, 0, // degree 5, m 8, difference 2, low
    -2502, -4893, -6834, -7966, -7902, -6474, -3693, -19, 0, // degree 5, m 8, difference 3, high
    -1249, -2490, -3675, -4687, -5296, -5126, -3620, 0, 0, // degree 5, m 8, difference 3, low
    -1251, -2495, -3699, -4732, -5396, -5284, -3888, -380,
];

// The table as a value: a constant that is indexed in a loop is made anew at each turn.
pub fn table() -> [i16; 810]
    ensures { result ≡ table }
{
    TABLE
}
