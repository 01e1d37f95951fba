// The names of the opcodes, and the code of a name.

#![tactic(auto)]

ghost use Rattle.std.specs.Prelude.{◌≡◌, ◌<◌, T, length};
ghost use Rattle.definition_listings.specs.Assembling.{code_in};
ghost use Rattle.definition_listings.specs.OpcodeNames.{name_table, name_of};
ghost use Rattle.names.specs.Tables.{all_letters, starts_right, place_of, codes_right};
ghost use Rattle.names.specs.View.{code_option};

// The names of the codes one after another, in the order of the codes.
static LETTERS: [u8; 1242] =
    *b"Op0Op1NegateOp1Op2Op3Op4Op5Op6Op7Op8Op9Op10Op11Op12Op13Op14Op15Op16OpNopOpIfOpNotIfOpElseOpEndIfOpVerifyOpReturnOpToAltStackOpFromAltStackOp2DropOp2DupOp3DupOp2OverOp2RotOp2SwapOpDepthOpDropOpDupOpNipOpOverOpPickOpRollOpRotOpSwapOpTuckOpCatOpSubstrOpSizeOpInvertOpAndOpOrOpXorOpEqualOpEqualVerifyOp1AddOp1SubOpNegateOpAbsOpNotOp0NotEqualOpAddOpSubOpMulOpDivOpModOpBoolAndOpBoolOrOpNumEqualOpNumEqualVerifyOpNumNotEqualOpLessThanOpGreaterThanOpLessThanOrEqualOpGreaterThanOrEqualOpMinOpMaxOpWithinOpZkPrecompileOpBlake2bWithKeyOpSHA256OpBlake2bOpCheckSigECDSAOpCheckSigOpCheckSigVerifyOpCheckLockTimeVerifyOpCheckSequenceVerifyOpTxVersionOpTxInputCountOpTxOutputCountOpTxLockTimeOpTxSubnetIdOpTxGasOpTxInputIndexOpTxPayloadLenOpBlake3OpBin2NumOpOutpointTxIdOpOutpointIndexOpTxInputSeqOpTxInputAmountOpTxInputSpkOpTxInputDaaScoreOpTxInputIsCoinbaseOpTxOutputAmountOpTxOutputSpkOpTxInputSpkLenOpTxOutputSpkLenOpTxInputScriptSigLenOpAuthOutputCountOpInputCovenantIdOpCovInputCountOpCovOutputCountOpChainblockSeqCommitOpOutputCovenantIdOpOutputAuthorizingInputOpBlake3WithKeyOpTxPayloadSubstrOpAuthOutputIdxOpNum2BinOpCovInputIdxOpCovOutputIdxOpTxInputScriptSigSubstrOpTxInputSpkSubstrOpTxOutputSpkSubstrOpCheckSigFromStackOpCheckSigFromStackECDSA";

// Where the name of each code begins; it ends where that of the next code begins, at once where the code has none.
static STARTS: [u16; 257] = [
    0, // 00
    3, // 01
    3, // 02
    3, // 03
    3, // 04
    3, // 05
    3, // 06
    3, // 07
    3, // 08
    3, // 09
    3, // 0a
    3, // 0b
    3, // 0c
    3, // 0d
    3, // 0e
    3, // 0f
    3, // 10
    3, // 11
    3, // 12
    3, // 13
    3, // 14
    3, // 15
    3, // 16
    3, // 17
    3, // 18
    3, // 19
    3, // 1a
    3, // 1b
    3, // 1c
    3, // 1d
    3, // 1e
    3, // 1f
    3, // 20
    3, // 21
    3, // 22
    3, // 23
    3, // 24
    3, // 25
    3, // 26
    3, // 27
    3, // 28
    3, // 29
    3, // 2a
    3, // 2b
    3, // 2c
    3, // 2d
    3, // 2e
    3, // 2f
    3, // 30
    3, // 31
    3, // 32
    3, // 33
    3, // 34
    3, // 35
    3, // 36
    3, // 37
    3, // 38
    3, // 39
    3, // 3a
    3, // 3b
    3, // 3c
    3, // 3d
    3, // 3e
    3, // 3f
    3, // 40
    3, // 41
    3, // 42
    3, // 43
    3, // 44
    3, // 45
    3, // 46
    3, // 47
    3, // 48
    3, // 49
    3, // 4a
    3, // 4b
    3, // 4c
    3, // 4d
    3, // 4e
    3, // 4f
    12, // 50
    12, // 51
    15, // 52
    18, // 53
    21, // 54
    24, // 55
    27, // 56
    30, // 57
    33, // 58
    36, // 59
    39, // 5a
    43, // 5b
    47, // 5c
    51, // 5d
    55, // 5e
    59, // 5f
    63, // 60
    67, // 61
    72, // 62
    72, // 63
    76, // 64
    83, // 65
    83, // 66
    83, // 67
    89, // 68
    96, // 69
    104, // 6a
    112, // 6b
    124, // 6c
    138, // 6d
    145, // 6e
    151, // 6f
    157, // 70
    164, // 71
    170, // 72
    177, // 73
    177, // 74
    184, // 75
    190, // 76
    195, // 77
    200, // 78
    206, // 79
    212, // 7a
    218, // 7b
    223, // 7c
    229, // 7d
    235, // 7e
    240, // 7f
    248, // 80
    248, // 81
    248, // 82
    254, // 83
    262, // 84
    267, // 85
    271, // 86
    276, // 87
    283, // 88
    296, // 89
    296, // 8a
    296, // 8b
    302, // 8c
    308, // 8d
    308, // 8e
    308, // 8f
    316, // 90
    321, // 91
    326, // 92
    337, // 93
    342, // 94
    347, // 95
    352, // 96
    357, // 97
    362, // 98
    362, // 99
    362, // 9a
    371, // 9b
    379, // 9c
    389, // 9d
    405, // 9e
    418, // 9f
    428, // a0
    441, // a1
    458, // a2
    478, // a3
    483, // a4
    488, // a5
    496, // a6
    510, // a7
    526, // a8
    534, // a9
    534, // aa
    543, // ab
    558, // ac
    568, // ad
    584, // ae
    584, // af
    584, // b0
    605, // b1
    626, // b2
    637, // b3
    651, // b4
    666, // b5
    678, // b6
    690, // b7
    697, // b8
    711, // b9
    725, // ba
    733, // bb
    742, // bc
    756, // bd
    771, // be
    783, // bf
    798, // c0
    810, // c1
    827, // c2
    846, // c3
    862, // c4
    875, // c5
    890, // c6
    906, // c7
    927, // c8
    944, // c9
    961, // ca
    976, // cb
    992, // cc
    1013, // cd
    1031, // ce
    1055, // cf
    1070, // d0
    1087, // d1
    1102, // d2
    1111, // d3
    1124, // d4
    1138, // d5
    1162, // d6
    1180, // d7
    1199, // d8
    1218, // d9
    1242, // da
    1242, // db
    1242, // dc
    1242, // dd
    1242, // de
    1242, // df
    1242, // e0
    1242, // e1
    1242, // e2
    1242, // e3
    1242, // e4
    1242, // e5
    1242, // e6
    1242, // e7
    1242, // e8
    1242, // e9
    1242, // ea
    1242, // eb
    1242, // ec
    1242, // ed
    1242, // ee
    1242, // ef
    1242, // f0
    1242, // f1
    1242, // f2
    1242, // f3
    1242, // f4
    1242, // f5
    1242, // f6
    1242, // f7
    1242, // f8
    1242, // f9
    1242, // fa
    1242, // fb
    1242, // fc
    1242, // fd
    1242, // fe
    1242, // ff
    1242, // the end
];

// The code of a word, by its place (`place_of`): at the place of each name its code, and 0 elsewhere. A word is a name exactly if
// the code at its place has that name.
static CODES: [u8; 512] = [
    0, 0, 0, 0, 0, 0, 85, // Op5
    0, // Op0
    0, 0, 0, 0, 0, 123, // OpRot
    0, 0, 0, 0, 0, 158, // OpNumNotEqual
    0, 0, 0, 0, 170, // OpBlake2b
    79, // Op1Negate
    198, // OpTxOutputSpkLen
    0, 0, 0, 192, // OpTxInputSpk
    0, 189, // OpOutpointIndex
    210, // OpNum2Bin
    184, // OpTxInputIndex
    0, 0, 0, 0, 0, 0, 0, 0, 0, 0, 200, // OpAuthOutputCount
    0, 0, 114, // Op2Swap
    0, 0, 0, 0, 0, 0, 0, 0, 0, 167, // OpBlake2bWithKey
    0, 0, 0, 0, 0, 0, 0, 0, 0, 103, // OpElse
    0, 0, 0, 0, 0, 0, 0, 190, // OpTxInputSeq
    0, 124, // OpSwap
    0, 0, 0, 117, // OpDrop
    0, 139, // Op1Add
    0, 0, 0, 163, // OpMin
    0, 0, 0, 0, 0, 125, // OpTuck
    0, 0, 90, // Op10
    0, 0, 0, 154, // OpBoolAnd
    0, 0, 0, 0, 0, 0, 87, // Op7
    82, // Op2
    0, 0, 0, 145, // OpNot
    0, 0, 0, 176, // OpCheckLockTimeVerify
    0, 0, 93, // Op13
    0, 0, 0, 0, 188, // OpOutpointTxId
    181, // OpTxLockTime
    165, // OpWithin
    0, 133, // OpOr
    0, 105, // OpVerify
    202, // OpCovInputCount
    182, // OpTxSubnetId
    0, 0, 0, 0, 143, // OpNegate
    214, // OpTxInputSpkSubstr
    0, 0, 0, 96, // Op16
    177, // OpCheckSequenceVerify
    194, // OpTxInputIsCoinbase
    0, 130, // OpSize
    0, 0, 0, 0, 0, 0, 0, 0, 0, 0, 0, 0, 0, 111, // Op3Dup
    178, // OpTxVersion
    0, 100, // OpNotIf
    0, 207, // OpBlake3WithKey
    0, 0, 0, 0, 0, 0, 0, 0, 0, 113, // Op2Rot
    0, 0, 0, 147, // OpAdd
    0, 204, // OpChainblockSeqCommit
    0, 0, 0, 0, 0, 0, 134, // OpXor
    162, // OpGreaterThanOrEqual
    0, 0, 0, 216, // OpCheckSigFromStack
    211, // OpCovInputIdx
    0, 0, 0, 0, 0, 0, 0, 0, 171, // OpCheckSigECDSA
    0, 0, 131, // OpInvert
    126, // OpCat
    122, // OpRoll
    89, // Op9
    84, // Op4
    0, 0, 0, 0, 0, 0, 0, 0, 0, 0, 0, 0, 0, 0, 116, // OpDepth
    0, 0, 0, 197, // OpTxInputSpkLen
    0, 0, 0, 193, // OpTxInputDaaScore
    0, 0, 0, 0, 0, 0, 0, 168, // OpSHA256
    0, 0, 0, 156, // OpNumEqual
    0, 0, 0, 0, 118, // OpDup
    0, 97, // OpNop
    0, 196, // OpTxOutputSpk
    0, 0, 0, 213, // OpTxInputScriptSigSubstr
    0, 0, 0, 0, 180, // OpTxOutputCount
    0, 0, 0, 172, // OpCheckSig
    0, 140, // Op1Sub
    0, 132, // OpAnd
    0, 0, 0, 0, 0, 0, 0, 108, // OpFromAltStack
    0, 0, 92, // Op12
    0, 0, 0, 0, 0, 150, // OpDiv
    0, 0, 0, 0, 0, 0, 0, 0, 166, // OpZkPrecompile
    0, 0, 0, 186, // OpBlake3
    0, 0, 0, 95, // Op15
    0, 0, 0, 0, 0, 0, 86, // Op6
    81, // Op1
    0, 195, // OpTxOutputAmount
    0, 0, 0, 0, 0, 104, // OpEndIf
    199, // OpTxInputScriptSigLen
    0, 208, // OpTxPayloadSubstr
    0, 146, // Op0NotEqual
    0, 0, 164, // OpMax
    0, 0, 0, 106, // OpReturn
    0, 0, 0, 0, 0, 0, 0, 0, 0, 0, 0, 205, // OpOutputCovenantId
    135, // OpEqual
    0, 0, 0, 0, 0, 0, 0, 0, 0, 0, 0, 0, 0, 0, 0, 0, 0, 120, // OpOver
    148, // OpSub
    0, 0, 0, 0, 0, 0, 0, 0, 0, 112, // Op2Over
    109, // Op2Drop
    0, 144, // OpAbs
    0, 0, 121, // OpPick
    0, 0, 0, 0, 0, 0, 0, 185, // OpTxPayloadLen
    0, 0, 155, // OpBoolOr
    212, // OpCovOutputIdx
    0, 0, 0, 206, // OpOutputAuthorizingInput
    187, // OpBin2Num
    0, 173, // OpCheckSigVerify
    191, // OpTxInputAmount
    0, 0, 161, // OpLessThanOrEqual
    0, 0, 0, 0, 0, 0, 0, 0, 110, // Op2Dup
    88, // Op8
    83, // Op3
    0, 107, // OpToAltStack
    0, 209, // OpAuthOutputIdx
    0, 149, // OpMul
    0, 0, 0, 179, // OpTxInputCount
    0, 0, 0, 0, 0, 0, 0, 0, 0, 0, 0, 0, 99, // OpIf
    0, 0, 151, // OpMod
    0, 0, 0, 91, // Op11
    0, 0, 0, 0, 0, 159, // OpLessThan
    0, 0, 0, 0, 0, 0, 215, // OpTxOutputSpkSubstr
    0, 0, 0, 217, // OpCheckSigFromStackECDSA
    0, 0, 0, 0, 0, 94, // Op14
    160, // OpGreaterThan
    0, 0, 0, 0, 127, // OpSubstr
    0, 0, 0, 0, 0, 0, 0, 0, 0, 0, 0, 0, 0, 203, // OpCovOutputCount
    0, 0, 0, 0, 0, 136, // OpEqualVerify
    183, // OpTxGas
    0, 0, 0, 0, 0, 0, 0, 0, 119, // OpNip
    0, 0, 0, 201, // OpInputCovenantId
    0, 157, // OpNumEqualVerify
];

/// The names of the opcodes, and the code of each name.
#[derive(Clone, Copy)]
pub struct Names {
    letters: &'static [u8; 1242],
    starts: &'static [u16; 257],
    codes: &'static [u8; 512],
    ghost letters_right: { letters.now ≡ all_letters },
    ghost starts_right: { T (starts_right starts.now) },
    ghost codes_right: { T (codes_right codes.now) },
}

impl Names {
    /// The names of all codes.
    pub fn new() -> Names
        ensures letters { result.letters.now ≡ all_letters }
        ensures starts { T (starts_right result.starts.now) }
        ensures codes { T (codes_right result.codes.now) }
    {
        Names {
            letters: &LETTERS,
            starts: &STARTS,
            codes: &CODES,
        }
    }

    /// The name of a code, nothing where it has none.
    pub fn name(&self, code: u8) -> &'static [u8]
        ensures { result.now ≡ name_of code }
    {
        let code = usize::from(code);
        let from = usize::from(self.starts[code]);
        let to = usize::from(self.starts[code + 1]);
        let letters = self.letters;
        &letters[from..to]
    }

    /// The code of a name: of a word, the code at its place, if the word is that code's name.
    pub fn code_of(&self, word: &[u8]) -> Option<u8>
        ensures { result ≡ code_option (code_in name_table word.now) }
    {
        if word.is_empty() {
            return None;
        }
        let code = self.codes[place_of(word)];
        if self.name(code) == word {
            Some(code)
        } else {
            None
        }
    }
}

// The place of a word in the table of codes.
#[tactic(auto, unfolding(crate::specs::Tables::place_of))]
fn place_of(word: &[u8]) -> usize
    requires { 0 < length word.now }
    ensures same { result ≡ place_of word.now }
    ensures within { result < 512 }
{
    let n = word.len();
    let last = usize::from(word[n - 1]);
    let half = usize::from(word[n / 2]);
    let third = usize::from(word[n / 3]);
    let two_thirds = usize::from(word[n * 2 / 3]);
    (349 * (n % 512 + last) + 231 * half + 259 * third + 470 * two_thirds) % 512
}
