//! The rows of an independent model: noise by the SHA-256 of its 256 numbers modulo q, two bytes each, the
//! high one first.

use crate::noise::model::Set;

/// A noise, and how many bits are decrypted wrongly.
pub struct Noise {
    pub set: Set,
    pub seed: &'static str,
    pub m: &'static str,
    pub r: &'static str,
    pub digest: &'static str,
    pub wrong: usize,
}

/// A coefficient of a noise at an end of its interval, or one beyond it, and whether the bit is decrypted
/// rightly.
pub struct End {
    pub set: Set,
    pub seed: &'static str,
    pub m: &'static str,
    pub r: &'static str,
    pub place: usize,
    pub noise: u32,
    pub right: bool,
}

/// An encapsulation and its decapsulation: the SHA-256 of the ciphertext, the shared key and the answer.
pub struct Decapsulation {
    pub seed: &'static str,
    pub m: &'static str,
    pub digest: &'static str,
    pub shared: &'static str,
    pub answer: &'static str,
}

/// Under SHA-2, at each set by two honest and by two chosen coins.
pub fn sha_2_rows() -> &'static [Noise] {
    &[
        Noise {
            set: Set::MlKem512,
            seed: "8f2ffff43eae1e62baf1e7a179b62c6a9a71abec7ea56fa88250c1ea270be9f63fd9c1ad5c8fde818210fdf83fc7636265e8928219f3333ee46d1ae9bc4567a2",
            m: "fe9f5f280965e0c82e720ca2b0feaee4b9e6d2d20cb308756fddcf7ddbf79454",
            r: "3a977b59ed395834d197eb7992f8a74327aa247a7b917e3b8c9374200eba049a",
            digest: "fb34995ba9c7f06d519da49a635232f915527265ef9d457c638897671eade4a1",
            wrong: 0,
        },
        Noise {
            set: Set::MlKem512,
            seed: "9bb8658e01b7663d356e047532a1a8d5e4b9feae78ccbbeee494d50034a49cd3baf495e0c25951ad1e8cd14322fbdcb21d5b28f5d72a7e1d4fb8b3a575c12d03",
            m: "b18d31cf441afc296b62608e60b02551439aae77653eba2bd99c5b422f0b0c11",
            r: "2b9d36c964edf97c5887d3a0d7c49be7357621f99b6635a2d6ac112f6dafdcab",
            digest: "58e5f2e2887df835c984e3175c9227daadcf237d253e330198b80185cd8eedeb",
            wrong: 0,
        },
        Noise {
            set: Set::MlKem512,
            seed: "ec1f8b38605a143c867ebaf2b45b3134f7b47521ea7859fb077d0477fa00bc6f49a2b28ce688618911dc4963f9523359fa6874a72fc29b3f5c5994505f985eac",
            m: "dfcdf711b0dd25fa96a55a03db1747670df0aef657d9993b0022d39e9426eeee",
            r: "899ae33a5cd1206c17a5bce7d6538df3e95d8ad68e7abe392d6e2cf3b3c1209d",
            digest: "13747b4fbc018eef5e0ee8c96a2e0e23f53d5a46720c4e31682e72f6e05071f8",
            wrong: 0,
        },
        Noise {
            set: Set::MlKem512,
            seed: "10a118a2d8825f611855423ec7a6f8da9eb92433dec6b317f76af8171df844d4956278f8e15156961764307b07f099607e727f3aa2d994241c26230ba26375ed",
            m: "7aa16b28e98a0bdff0d0eab4bcb2f2daf4159f7e41a066c464f3e2183ccb69b7",
            r: "0000000000000000000000000000000000000000000000000000000000000000",
            digest: "ea9873ff05cf690c2b2f7c69ffe2f0d0528add6f91cfcd93bb3771dd68ae1b91",
            wrong: 0,
        },
        Noise {
            set: Set::MlKem768,
            seed: "3c31685048fca2a40244d9d140984342607c7e75e0f47b72a5daea86737b7cd4cb94e8aabc414ab8ecb85ed74d7f9b996accb515494e5bbd544e857b2004aa64",
            m: "13a77cf29c969694b15804f96ba57bbdf344629651bca66fb5b6849953201142",
            r: "29b7c372a3a498bd70f0e60cee727d0011af550484f3cbb6b16b19e9c32a62d2",
            digest: "b4c0ca3ba656ec7e1752862bd51308d50e066ea62c622d7078d9451003e4fdfe",
            wrong: 0,
        },
        Noise {
            set: Set::MlKem768,
            seed: "34982f90f74772923b9ff573b149cbf0688e82ee8116c73a13c1b68caef0fa1f8c7379d688d8569348c3de15b428349a4a8e4785f119eff99be4b9db7db8bc3d",
            m: "6cc07e342bb6e28a9e0e8ab1070d79608356159a7ed4c35f78a55209c55a200c",
            r: "371ff50b9bdca283cb0c77a0867e82c1887b8a3f49a201e84dc9d99918e09ceb",
            digest: "07c27dffaa79a0992b58606da4164ee9821bea4a94c10e49cf688f15be80a989",
            wrong: 0,
        },
        Noise {
            set: Set::MlKem768,
            seed: "63384e4ea53f515bfe8aa1ed582817f8f57a043e8b819698290294302c181288298e3f9f8a3da9a788ce82ce0624693595e4ef3c1e6e56c14647fd2bd9441fe2",
            m: "8b1172a8def25baf4a08a936ffbd5f94549509eefa9605a4af5e631669dbb7d5",
            r: "bbbe1bfa2bdb18f0c5ac3915a74a927d090fdf7f1197c18c60639e6ab93b81c0",
            digest: "bc7ec3c78818e9c330a402ad9e478e0356b4e364c8c730281b4c0995c55628ce",
            wrong: 0,
        },
        Noise {
            set: Set::MlKem768,
            seed: "704e11e45b5544670d8151b8f0fc5674107e3a2fac88279c18d1b01b3401f205bf015df50255e13a724d1e47c2d648ba5a384048b23f5e3abb463dd614cc2d0a",
            m: "2b449b47f0c694959984496c12bcbd74803c05e661fc506ede09b4f998eec01d",
            r: "0000000000000000000000000000000000000000000000000000000000000000",
            digest: "12875b4130c99b78740a472955db0c1f323f293ffee2cbb33ebc14c13791279f",
            wrong: 0,
        },
        Noise {
            set: Set::MlKem1024,
            seed: "59efc832e9f63016cd850d085dff17b91e24215e2823fd79f8b2223f70f8bd32c3f3040931d6b215bd77844f4dd1e2202e278c191a54f5291f8f6a28147a1940",
            m: "9cf011e7a71b77e7c7b861a7a3efb29db577c716e19c4e0dbf9a9fb64abc309b",
            r: "92fedf4290b4e0df7dbd3d352fa07d9eeefd4e34ca4aa483cab7daf2fac551c3",
            digest: "4944beb3f4737f58f5af108e8a5885cef70020c52a6d49e75f97148f3a7c7895",
            wrong: 0,
        },
        Noise {
            set: Set::MlKem1024,
            seed: "205fce9baf511a028035460e75cf519214a5146cd31c4f97f7a78e00894c2975bdaaf7ad91ebf39a88f0e4762ad179c8c6e502256988f369e677474eec023784",
            m: "41c3ace2785dced0a7132a59fb0a855f274abab3512c7fe8b12e15ddacd09e50",
            r: "2af711a223ed4f7b5a6fe10ab8849f090912104878e56322b67cae350bbdbb1f",
            digest: "15ed323f8c786a699ebc302f86f8cd38b470a552c2d26059b12081a2a4b99c5b",
            wrong: 0,
        },
        Noise {
            set: Set::MlKem1024,
            seed: "29dae5441a544eba6e34725c16e404827896145efb46b1a7a32577091b79587c410bb9cc9570bfa788e15577ffa7695b3e00757e1de2466802da05b5b49f1c20",
            m: "ea6ccf8cdbdcc5fffcc8eaf768123dcb2f0a7b9c24f924d81c11e718230ef1d5",
            r: "c4bfefde0cc62855769c5bc26392b4f86050f73fd9602c423f46442fc26a3d33",
            digest: "a71366ec9735f33f7fd3860f0aa474b300360efb0c44203b5caf1268ae609981",
            wrong: 0,
        },
        Noise {
            set: Set::MlKem1024,
            seed: "c9960f130b966f924c1f2f7ac9996691fe8af0fd31460e634b8bd2942ff2d8ccef4f16143f9cdb794f54d9b7e35fb95bf0a6fcde92f0539785baabafd7383a0a",
            m: "941ebd759a42100fa34ff58cd4db10a518a9428416eb469466d83a18a1434c66",
            r: "0000000000000000000000000000000000000000000000000000000000000000",
            digest: "bb29ee2535a7f3f674c31f0118bcecdb0b11438e863488c7ded1aa6600c2b47b",
            wrong: 0,
        },
    ]
}

/// Under the family whose PRF repeats one byte.
pub fn one_byte_rows() -> &'static [Noise] {
    &[
        Noise {
            set: Set::MlKem512,
            seed: "5804089d28346589183a8e5c4b2d1bd07a63058cae550a7feb1de607b3b432c358ebf8b99f5351ec0d4c1df7748437f544c15fd1e3f80f77b61533022114154a",
            m: "cee6bdbfc25d9af60eca16727aa4a95ebe41c6473946b042852e55321f96da75",
            r: "0fee27c1110b1255743c73e19b07aa0833f19303f311c0e649a62deff24581a0",
            digest: "3d0ae39df5e75a96dfb9d63cc4a99653a53991408bf85d954f9b634581225110",
            wrong: 0,
        },
        Noise {
            set: Set::MlKem512,
            seed: "afb6266ed7cb32823848e9895f13d2d5553fa0827c7d190e5aa12bf33744cf308e317a2d0a2101844ee722461f3d149d464c2c5c8d587285efa52d0e6d217010",
            m: "5107fec193dd66e280e98cc14c826492a1bc2a7dfd52d6147299e28bb79a4cfb",
            r: "e1902504895e1728bb54da0071bf36959f41314f881a4510b4ca8bd4b87d87ca",
            digest: "bece2a5738edf0a489a56b4dd38f30c7deb08ce5c8d35a744079048f38c2df52",
            wrong: 1,
        },
        Noise {
            set: Set::MlKem512,
            seed: "a72dce0c92e664862491d709d7e54e3edc31c171056104101eb1c75eb480f72163ed6021ec8d13acf1e1abcf9ec9a3631e6659cb8e00aeded9a867c92ca82729",
            m: "0638831637098df9282f4811b7590c6a3dafa8c223e4fe1b5c918f8cd535ecd3",
            r: "f9721517f76cf72b47717a8a0363ed70e84cfd55849e0df85d30144d90ffb522",
            digest: "0b7d9f6eebf6eed47a588ab0b63b658337cd93b95002df432e4df3863791d9dd",
            wrong: 5,
        },
        Noise {
            set: Set::MlKem512,
            seed: "2bfa07b4847204b281bc8adb52888cef99f040cb7fdcb18425928772148717f7d1db5fbab9a09c20ae368124dfcbd87153943fada19d34c69f0e25be6b17d789",
            m: "fbcd0ab15292f8c4d3c70729f641bc526ea6b8a2967ee7598187b8c912a99e09",
            r: "0fc2153f643369336181982b60c7353dc2a1bde7d9ec26ab48cfdc66a11d947f",
            digest: "1156ce60e5d5ab1ad9518408fd743ab5d08d8b8b18f355a4a888a432437b6dd2",
            wrong: 47,
        },
        Noise {
            set: Set::MlKem768,
            seed: "bd2b4f7e256da3816bc2cf3c08fe91063f290eac0e1b01be5902d610062d6348cde98e1f737e18bdcc048a72932ed8bf7712e3a01d58313a41dc762868cebd44",
            m: "c93db33b1c36a38345c3e166bdc3b3bf01866c6fb9288ce5abc8e1aad9214946",
            r: "f0df0b4702a21a364b6e433687c5db6bc4da95ea2050f3a309b12279f0972d5c",
            digest: "e056859e0394cfbc47dc317fd94b82e3064c66be5636343aad91db2a9f05da4f",
            wrong: 0,
        },
        Noise {
            set: Set::MlKem768,
            seed: "1c892a14177937b7fb4f93d62ef948915c87f8219aefb8b7a8d604e06d08b8a91919d06040cdfaba87f08c3430ebebe8910291d93ce9fefa8e21fbe7b3fed26f",
            m: "fb76e35bcf2f922a425f208d20d8d5e0e9a491e0b50d5a76845d49125ae27954",
            r: "c99d7575371c55f9423c325db54cb4219960ef0a5c8bfd71454ee00987163a32",
            digest: "4664f93657c9bbf0701ee67282e98e82b4c57423675c3b788a487d831e53d881",
            wrong: 1,
        },
        Noise {
            set: Set::MlKem768,
            seed: "150fe163dde1c1119b5c92ffbf22aa45bc4b95e92d955b9f1feed53a0a8e296b4841be121696885a301eab846792892c758d83183624405a3bd6f1f5f834869f",
            m: "cd96383a99597b07ec4e45dc4560b89008774874bd78d5f0b3d0437071791fb8",
            r: "670c0ab43ba12c2be32826a68f3cbe943f2cb9ebc102d6cf0cd1cca61f6c23a4",
            digest: "1774c4280b2e71710298c6b1440408670bab972df7dba79efb70c477dcad9b09",
            wrong: 6,
        },
        Noise {
            set: Set::MlKem768,
            seed: "9c78da2fb63c06bed4124491e8e347109c399244abf2eb27f5e2098baf3cdaeb101d4095df293d5abb9cfbe13ea8a5ac88b79d4d0e151e7a2cdce0ec3785b0c2",
            m: "b1ef4ed7dc6d1c612721afb0683887fd67ac6dc23022f7be4983cb6c56d2db77",
            r: "dd41ac9c4d39c403f52fcede41627e74c169e76b647feb95c0932f56c5318b7d",
            digest: "3eaa7ce6152a1ca0b89143bdfdca98139ab6410de902692ff72fdca635e83bb0",
            wrong: 58,
        },
        Noise {
            set: Set::MlKem1024,
            seed: "99319644b15f625e8011f20f213921398d8343b607e8c554090db45ff2c2e8d6e5ebc6f392f92044e17ea7d470c26947af07ed127372d29df5c4a78180628890",
            m: "365afef8018a654a4725f9637720c8377e1ecd93e6e6e28c022df8576f1d0eed",
            r: "218b36a6c8074bf27ac718e5e8a39a553d9b27b5aeb3f2fbbc2592ba6b303059",
            digest: "273d4f7a8f95190700832c7e865a97943375544a8a3772b3eccf75de7e0d809c",
            wrong: 0,
        },
        Noise {
            set: Set::MlKem1024,
            seed: "493dd78e855773ae36b5ca06622dd06eebb05ee381627b66a29129d7ba50318ed17e227c72d5f881a3cec6cc01bdfb8d312ec07c0bea83cc87c52d023dc470ea",
            m: "30dfd85ad413d17b3cf2a4591931e094cbe8b83bcd6de68142fdc873a5ea225e",
            r: "21471c67f46389b30206d1d52ddd0c88f5ec7466310cf638c7aa704df06d7e41",
            digest: "ccaac1599234b6dc6a9545aa4a5fc33b1c9ea0179f79a003875729987dd6884a",
            wrong: 1,
        },
        Noise {
            set: Set::MlKem1024,
            seed: "cc0851440cb1029cf7ada19ad9cb258ce7c66979b0f0165abbf21fdc6169c918f5980e64c2cf407b7fa239f962b89437e7505158a9d7e7a0ccbb2c537e38873d",
            m: "6c6564094d4203ea1f3d82515281beab407fe98a857b59818999d86da899e0e9",
            r: "0a5506c7fa009d2b9e93ca05511df171e020a547de50d6805d5642aae2600bb7",
            digest: "889e0be398d7b2aeca337ed0f452868187fc596d3fa9518e57f6936dcf1d8fd3",
            wrong: 5,
        },
        Noise {
            set: Set::MlKem1024,
            seed: "c5246aa4611ba1ed5d11b5acc55f8610f4c3c583ae7340844b039e7ff0783f0ea817385ba7448c813c34d9bbfe4e9b9f4e5292198b5fe28b782d5163f81a1d4a",
            m: "42a25cfbc5f6200398fac22029729b0046abdcf6c182b706e06d818c59252a82",
            r: "73a285963512e8a7b1e1a619757e16f2aaacc25f0944d0f413e4d2a1781a663a",
            digest: "88384175114adbfa475ddf5d930e97f337d1d7a621f4dbce602aad378fafeb55",
            wrong: 80,
        },
    ]
}

/// Under the family whose PRF repeats one byte: all eight ends at each set.
pub fn ends() -> &'static [End] {
    &[
        End {
            set: Set::MlKem512,
            seed: "1c81e64b91d87cead0700c6052df07b51c849d83115e4ff2cc04b27ffcc347c884c6c33050cd21f08dcdc681a2d78ab8ff54d6f8c5ea8369ae6c28771cc04220",
            m: "21698697176cc13dcc51334b04249988305c56f312fc66d7315b8504749652a6",
            r: "3d07c197f655332c1065fbf15fac2e578f9e6f7fb9c536990862d92d48334f44",
            place: 2,
            noise: 832,
            right: true,
        },
        End {
            set: Set::MlKem512,
            seed: "384cc91abb2d385a1ced66d5b7c14c705f6affbcb2db03f1887adb20afa8a3ea6fccb269393d2c50529adfc0c143f53ff273e585946a0614ae406f63447d4877",
            m: "d2bf7590ac440871687417e68bc5ee5bed5d5c25cae66e45b888df4cca8d99d1",
            r: "86706579d305d387b3ddf5fad8a596fed418a91e1c7552126e2ff09572e79c07",
            place: 253,
            noise: 833,
            right: false,
        },
        End {
            set: Set::MlKem512,
            seed: "a450baa10029c8e1b9a42df9f1650082469dc285f0cdcbed5ee17a62b649326562d37d67bb1cdba78f4cff083203006892e04d3754694995ab42937433478df4",
            m: "79a9042f8ef1ccce86f98e10bae7fcfd5616c3f472118e4f85537de4e65704c0",
            r: "e4d7c06c163288d5c47cd366482329682b0c94c07c55826251e753834ae15d7d",
            place: 23,
            noise: 2497,
            right: true,
        },
        End {
            set: Set::MlKem512,
            seed: "557c8d28d65c13f1c90cb8bd9cdbcdac14818cd5ae7502b6564ad31b908395925481237e031d7c5fe43fe09c0f9776469ea1d2067f9c2ad403355424361397fb",
            m: "d47131d001bcaaaa72885053051d6c8445feb5f6ab1342dd78990637ffc14127",
            r: "686e360816812d19037457219164bedbd719b3dee8eec697a73252645db05ccf",
            place: 243,
            noise: 2496,
            right: false,
        },
        End {
            set: Set::MlKem512,
            seed: "d555e19fc340ec3598dd5071d9a9a0de844970950c644d05594e244a5e84842a4f042dd692d032f770c0db31983beb43992affbbbe1a27ffeba3dc610e42eb3c",
            m: "3ad9a6f6aea91aba456bffa9a81c6df326369cd587ff19598742ef3bffb480a0",
            r: "c1387596d9d8926a74f1129090c22550e315f298151e95b2de84187bf464390a",
            place: 231,
            noise: 831,
            right: true,
        },
        End {
            set: Set::MlKem512,
            seed: "370d14fdccbf829013d3a3bcaf82b36b48283c1ce72c00ffc7b6dfe9a968957994e0308ee4f83a3118221f1c5035311ac1e9a814872e985f137fe09fd7f8e909",
            m: "d7d9cbe731f8bd9363549366ba2ae83d80f222f09942f2c7090ef6ee5f1c32e3",
            r: "c9e267db33187aea6781ee1e8dae8751e33f1a3e97c88aadcddc48a1ec6d7488",
            place: 254,
            noise: 832,
            right: false,
        },
        End {
            set: Set::MlKem512,
            seed: "c4ca24871d0a163b3dfd13c4ff4bed6c69213e488fd85e28e44cbd2e0a46b999008e5d5f75ec177d978e23ccf443b914fd55a5274dbea7873ee1a8608c3c6489",
            m: "87b2c725e1c02b5fe312b019a418c92db3e0c6f4bb81c85bae252525ef5267cd",
            r: "c7aae28784b9eaeb2b73b07a4492ee2ad84762d0ad7ee7997ba24c3389c2f15c",
            place: 227,
            noise: 2497,
            right: true,
        },
        End {
            set: Set::MlKem512,
            seed: "353c32541552fef2e4dddef47b3df50deebbc3eacfa1124a48f82b81b82176594877f9a00752f5de802081c5b2a84fbbeffa9eb0710f792fb5b89a2822cca1af",
            m: "48f3a6f5a66480c147987048990716a5e16f1c8079484fc0e5bcd178858d5030",
            r: "97a6689b91d983aa6192d141decfb74a2a45b302879128a737524bf039e3fcbf",
            place: 28,
            noise: 2496,
            right: false,
        },
        End {
            set: Set::MlKem768,
            seed: "190cd8ed36873ccedb695a81f5fb106c19dc2264958b50814781c450169042945808b3f8f7c8df4409fe0b10c0be8855baf23e41a3a8d2804ade88469e8353ba",
            m: "ec07d0f3db2ceaa7601b7b77ccd75a512ec0d29088d2af2ae5be79cf61e03ffa",
            r: "0471d8829c390dd43cbcab99005067d0a89dfed8ef7a2fea99e0d73e8991e38b",
            place: 246,
            noise: 832,
            right: true,
        },
        End {
            set: Set::MlKem768,
            seed: "fd7270dfe6eaec1952f7762544184a00c390777539a87acb397e91b07165911b38b72f3b1a783775f48c0cf978a368bde24ad1c2a365b366ab2cdb8eb286e38d",
            m: "5497c6c3929c71ea82d662a4a61466d7cc51dc5c14eaa721cd96cf0defe4fb02",
            r: "6efa0310f9d5286489fda7be2c27e774397f911bfe2a3aef8afa596164e4d31a",
            place: 232,
            noise: 833,
            right: false,
        },
        End {
            set: Set::MlKem768,
            seed: "931f9ef8dcc19102d2b18acc1f4ac8fcb81d066dc465f1245263d281fc281a1c406a38c8c94bea24473a8c8ed2851fa32f06493cb2162fb5fbb5c18fc92942c8",
            m: "1c5506956db954734e2080137339e9f19a5cb73984c6bc5f88c3f56e8390362e",
            r: "84d498f8a3dc3544d165d46e3a786d2d01ff064ad19594db1617a92d49c8fb15",
            place: 46,
            noise: 2497,
            right: true,
        },
        End {
            set: Set::MlKem768,
            seed: "6ea3c6c3556ccb8cea539c2b6459d116174f95268c223590de4835afa31f3abee0cc6c960fa2d3b362331ef2c9c1779a72b64c79bc05e5547dc7a90f112e0543",
            m: "e9ba237548dee3c6d6774a20d6e657df9318e4b65e42dfd3f0e65ce91f43f041",
            r: "34cc642875d1a55673b6ff77ad140ecd2b1bf6296ac325d9ee6f2ceac2d761d0",
            place: 18,
            noise: 2496,
            right: false,
        },
        End {
            set: Set::MlKem768,
            seed: "4a40ea3314d053472be3b451650b97bf3e49ab644c1f6cf3dc3f4d40f89d08eb659b7f65e9ffeafc426d11b68e6e900d0882148252ad9008240e90eb5d018b7a",
            m: "7267e08d0283ca22a4aabb9e8a7173c04fe9b484874bd92171240f5de23a68ca",
            r: "d7f29083227b1ae1f84f3fef7d55bf02cd3dbb2e3990311aecefa2e2f0c5b266",
            place: 23,
            noise: 831,
            right: true,
        },
        End {
            set: Set::MlKem768,
            seed: "6b6eefe2aec673ac72d0148d5db25365232a69ae1b5185191678736e260bd2632b61983a7be5e2312cf9d79bab30c6a64e106922ff32f15b72a399be4233f2d4",
            m: "3563b270f69d43423aab3d685af2d6a15baa7af251420d04bf511381af94dd91",
            r: "4003143648393eaf78f076b763e52c4143eb46987d4c16d6fd362710d1efaf66",
            place: 14,
            noise: 832,
            right: false,
        },
        End {
            set: Set::MlKem768,
            seed: "6b6eefe2aec673ac72d0148d5db25365232a69ae1b5185191678736e260bd2632b61983a7be5e2312cf9d79bab30c6a64e106922ff32f15b72a399be4233f2d4",
            m: "7149194704e0ec3fc70c94525cfc7b7d7ba36d97a19fc7fbd14b394daa80c38f",
            r: "f8842352e10ab460859c2a8aab274d9368e0017759cfdad988ac6ac6e8b7783e",
            place: 255,
            noise: 2497,
            right: true,
        },
        End {
            set: Set::MlKem768,
            seed: "4a40ea3314d053472be3b451650b97bf3e49ab644c1f6cf3dc3f4d40f89d08eb659b7f65e9ffeafc426d11b68e6e900d0882148252ad9008240e90eb5d018b7a",
            m: "b733414ce13f5d9225127724328a9f69fada93c7f3c8353759f6a89bf1a8a77a",
            r: "30420a9700ccebf4ad76dea873cac3586cab11630abf813d7772e66795a0a051",
            place: 37,
            noise: 2496,
            right: false,
        },
        End {
            set: Set::MlKem1024,
            seed: "dc0037d420e294fef9f23031cae158a1cbd8d27029e42652e2e13e70e01c123bd1ecd88f1b9cf0aeb14158b32534a84e0815572063fba6bcbd97d36e43da569d",
            m: "e3326b49146b40b00bb0c6d70d22399318ede994bc6950eaa797a951c1b4acd6",
            r: "3d2abd02d19d332f1421abf946ce96088c5b4f0c333e9cb723749d076fc793f4",
            place: 244,
            noise: 832,
            right: true,
        },
        End {
            set: Set::MlKem1024,
            seed: "72afeb181fd26ffba64572a7e7ed73730bac42f8559a494cc9835d07e2b46a614cb10a2896fa2192b4ec585533a45f5e2dd3eb84c53af50560786a2db5914555",
            m: "c32b87bae6ea2eb481672ce780f22b789df0903ab658ffa209416935c43af401",
            r: "9adf1982b2f80c566c93a535f93c9e500ac38be461796fbb977782a89ea4ddab",
            place: 243,
            noise: 833,
            right: false,
        },
        End {
            set: Set::MlKem1024,
            seed: "c15eb36ccea949626b45ccc2c5d0bc3b6d09b1a528651b74803593ef276d06c89d8b695374c6a0a69dbdc5585b32991ecd154841fabd665ca04db9711abaadd6",
            m: "a0b2a00d5c497793bc1c8c43e4038225b2df962ded97c8baaf6d8d0f07788516",
            r: "6e2e45893d205e9c217e76f6cb4df3b81e00e2e01171069776614c96ac221ab8",
            place: 232,
            noise: 2497,
            right: true,
        },
        End {
            set: Set::MlKem1024,
            seed: "d8087a36b7baec05b4372b2901fa775ed94d1fa492c19f72b515f20c926c43615e1d346d26c919a4e7a57ec8a8dc00567219d32e1f2ec69aadf8219b41d7ca39",
            m: "c64e6864b25de7501607c6ed14ef8e066c02bd5ca404cfa76ecb0e4a04ff8851",
            r: "c2351b2e746cbd3abad35e85bb6c109665b386fa14005af2ed96493e76a7dcf8",
            place: 25,
            noise: 2496,
            right: false,
        },
        End {
            set: Set::MlKem1024,
            seed: "c22c90381a251e5613dfeb27b17ea9de51c9743924ba3e8593f70140ac2dc04aefcdf56182ca208f667b2b911156413f833938606c2573916f6c3ab2aa134075",
            m: "9d8ca79950e63ac5270f5685c19915040af524ecf92f15b1c7a86ad0a055c3f1",
            r: "8829c7e2aa31db72986354e5204c55b8f69bcea8354890515fada9b2e5b2da97",
            place: 51,
            noise: 831,
            right: true,
        },
        End {
            set: Set::MlKem1024,
            seed: "71905452714bfd39bff8263dced0d0ec86794958badb3b76540db5ca9ff41e6635f04d1d833992c920efe28f5c8600e55d5c39b50a58f2a7ddf262966b27eed2",
            m: "f1e880c897c42e54a5d41cf1a9b37a5671cc28f0129436786e00d41fa0d8acf3",
            r: "a5a89f6699f002367af5a856e22203bba762d3353a8203484d711e71624cf623",
            place: 5,
            noise: 832,
            right: false,
        },
        End {
            set: Set::MlKem1024,
            seed: "d8087a36b7baec05b4372b2901fa775ed94d1fa492c19f72b515f20c926c43615e1d346d26c919a4e7a57ec8a8dc00567219d32e1f2ec69aadf8219b41d7ca39",
            m: "909208e2be442a1b9a8003521de52d271079ba414d4701f22c266ceecf2786bb",
            r: "78caccc947205b357e652d0826ed3b26293cc7a38ded9465a236817f2595a4d9",
            place: 189,
            noise: 2497,
            right: true,
        },
        End {
            set: Set::MlKem1024,
            seed: "c1830474f8a2db669efe3f1ed764a95ec2192ef81e1786fbd3f05ac78fb4d1fe2945adfd1ad66bde69ef90338283ca26ae39a2d58d347fb4422d7d71086bef96",
            m: "94ddf36499aaf41045080851e43141ac14e5ada704a803d666ef9a48600d2343",
            r: "728f0a34d0e9c984cb6223fdd4fedacbace29e77fe51062c56c4c55dc5634822",
            place: 232,
            noise: 2496,
            right: false,
        },
    ]
}

/// At 512, under the family whose PRF repeats one byte.
pub fn decapsulations_512() -> &'static [Decapsulation] {
    &[
        Decapsulation {
            seed: "8f05b119d682972bac5aad297e6f7e6f4627b1d3e91377ca4026df67d417e6d49a9ce71f969e2e24b22f5a009b689c17a6f0d895368cbfcec1be456dcad8d4ec",
            m: "1f573b38b7bac643a4035167291ee011d7528c3d238065e1e10d69d679a20e15",
            digest: "0f691dc1cffd9261394c36cacbab4699743cb6ce7429bac272091255310f49ea",
            shared: "1b57c2d335c846ca4caa01c63c21dc6ac4365077fb546a53d7096de1539ec786",
            answer: "1b57c2d335c846ca4caa01c63c21dc6ac4365077fb546a53d7096de1539ec786",
        },
        Decapsulation {
            seed: "330b4b6751b15fdb2518b76dc38fa949e99f4b7da287afbfe8d7bd6863d23db060553e91f913112a6a8ddc9299cf2c63c419c10165cfd612bf57865625eae8ce",
            m: "5093bfe5abc0fee31d45ec7f67a7b97322716e6da4745b3e0e3ae3d6f609e066",
            digest: "0c652aba1824372be127b9c51af5d386f856bab9a78a8232609be2d047128fcb",
            shared: "da12f50028f1c5d6cace8a00d606578afddee7b27ad7c0c354ffe230d3c04375",
            answer: "da12f50028f1c5d6cace8a00d606578afddee7b27ad7c0c354ffe230d3c04375",
        },
        Decapsulation {
            seed: "511a0a3d00357296365428020261873a679f62dd0b65cce49ff28278355d7665151e6530f51683345ddab40f3dfcdb39bedf43c967801e7123358a2dca017646",
            m: "88e272b47bd3f541aa64e9e9903fcf2619e8bee0560b6be929f4ef7fbbef26bd",
            digest: "c97f29b096ee3c0f7e2d402686fd81dba90f921a6b4439da2395bbb952a5ae01",
            shared: "298755508d5e56ee7b88a1f5840f958fee2ee1e520e3bed73915f96e4387e811",
            answer: "7e852588803df0cc6ac2fea87730454c6f0934802752a3b3b78b6abae60a45ea",
        },
        Decapsulation {
            seed: "bf51f87e87d14111898ec38b16215bfc0e6f8ce59eda13e3944a4528e915cde690b9abd7aad456e5134318227d0feb114c12ad3b6679d33133e28eae072c1327",
            m: "d3eee3e89d2567075326eebcb85e8c660f977733c5cb011316ac466cde456b70",
            digest: "6c73e6632963647c1eb1a8db4a94aad43ad381696fadcc7f971ab996447fb192",
            shared: "9ba99584fb0b76c36d2250b9eeca15f5924d190e9764f492f9a04878d203c913",
            answer: "a9bce61c3a008345726c2b5a7ab88b2f25cc2611ad6afc666e4f547d1dd990d4",
        },
    ]
}

/// At 768, under the family whose PRF repeats one byte.
pub fn decapsulations_768() -> &'static [Decapsulation] {
    &[
        Decapsulation {
            seed: "07ae5908492636b8a03ded7ab63c33ff13946b5d89c071adcd296b0f935ca876d4103482501439dcf45a5a0102d64f70a70112c01f7cde514c120d7499242d97",
            m: "0fb1962b56f0dc1d5c2fb8bcad2220805f935d296fbfbf593d4fc75c61ca1089",
            digest: "d4b3ff131a8406561882cb9679b134a51c25d979be1681b44c7ef6fdc0b47a2a",
            shared: "7b4618597a6f7de5fb95000490608857528cce00d7c3d8f025ae564fa6ffe499",
            answer: "7b4618597a6f7de5fb95000490608857528cce00d7c3d8f025ae564fa6ffe499",
        },
        Decapsulation {
            seed: "fb7e78ceda1f6e6c56e92908509c82c9326b453c639296cb1a22339a5f5719fb1f038cc308e8fe0edb525f317e25aaa12506ab6c21bb25ae94d3bfc3fa25a652",
            m: "c68f0697adc15b1466c56943d1a352cf4159289636e0ca786b00b30742691d23",
            digest: "ff34e10f52726b96cd3ad28929449f11d0ffa0a0a2a227d0e6150ab07564a26a",
            shared: "fd56a32f56283a83d1217378503b7dd99887fe3c90e4a5d9cf4a977b1c2e3e9e",
            answer: "fd56a32f56283a83d1217378503b7dd99887fe3c90e4a5d9cf4a977b1c2e3e9e",
        },
        Decapsulation {
            seed: "5d6cb6316ec7e94f31388d94a8db4a97b11e4edf215b9967677aa9638f7f2447acb7453ed95b462b716a0c436d6310ced39707332e0f7d564ac6f384228d1f4e",
            m: "7fb21b5285e1e3c016d3b44df2f44aede20c8286da27ed6778188831a4b59798",
            digest: "c16797cee3fde13e4818f9c063de9cf4e2ce5b61c9b56ac49a5669a7215a75cf",
            shared: "4497cee1e0c8d735faf1023344aa9182a6a003f65e8f280df3ba0a92e1556c1f",
            answer: "fd1b4a89168ebc4f0767e632c9ca7785f62c0ca175bee3a199b236c96b2bab1d",
        },
        Decapsulation {
            seed: "50b9fd78f16767ac78544ff4791893f6c7ffcd3eae091d3568b43c52698767b642eaab07f2711b77be4e1479bc1c62464afbf463a8a940767b5e75f770f528ce",
            m: "ac2f0b611302c426246f99c3bab6ef6458a17cecbea3c5d280ab2c3cd5587905",
            digest: "70ca88e753aa0a83ba99d1635e8abded64ffd1dbb8c12ed9a07a04e82bbe7f09",
            shared: "f3d722f74689a36756e675e2f299dd9ee6de5ad71d6894e2d36be09376d474c3",
            answer: "5f54fd157902993458d4ec7674060e8310378c24bce276501bca55065ecbc69a",
        },
    ]
}

/// At 1024, under the family whose PRF repeats one byte.
pub fn decapsulations_1024() -> &'static [Decapsulation] {
    &[
        Decapsulation {
            seed: "72f66ba4426e7e57edfebaf89501d6b16b488fe153dd536457185183dcfa01b3971e1ecfbaaa157514f407d1a0f44a1e37f27ae6983d620749b4dbe7a170b0ab",
            m: "1c8cf59450ab82bb6fa5b91632912e34348775032f251fc2b270570bef43a58a",
            digest: "6313e41dc744eeb2ab760f0dbc2b5982f6c46343cb831a9eb378ec9e76a8ed96",
            shared: "d3c376f82ac0dfa3b19f1a74989635a3a700c82e3f770c3416d068cf6ab297a8",
            answer: "d3c376f82ac0dfa3b19f1a74989635a3a700c82e3f770c3416d068cf6ab297a8",
        },
        Decapsulation {
            seed: "51016b83d03e274f52ed53103995c4d3c14d07faa26465d1264f3bd372b9008a4cb792963d5c2c6327fd91775ebc4054cf26f00e6347388fb15339d20991d428",
            m: "cd0e3472999d1a1cdf99a68da3bb68830467bd02f84a2e94c6225784e08ce43f",
            digest: "a882fa912bea66ee730b22ddc20dea6dc204a554bd222d0c3a3fb842096f7e6a",
            shared: "a751e931941ba17dfac7a799606b3ff07db5b973e3b9bc9cdf281a2ffed81fbf",
            answer: "a751e931941ba17dfac7a799606b3ff07db5b973e3b9bc9cdf281a2ffed81fbf",
        },
        Decapsulation {
            seed: "de8990d28ff3f48969138d271925d18eee4febb16f23b3084a0e79a1c32163e2ca3e7190c3cbd766556227484dca17bba99e734a51fdb3c0de551d2ddae0ec38",
            m: "522e19c749eb667de53e0650f35849226f02d9d1e84ca5f9f8345413d93c4c2c",
            digest: "c5d1fcae5ec18a0471bcd620e770515f59f8b7de98b790df2a396d4df86fa8a7",
            shared: "e423b8de689f680e4605a64e31f5349bb5c34c09d4db13baef68768718b925ed",
            answer: "4fcbefd3492118236403e8f60a324a5b7b90bddc1ff9f17b8c1a7b1655e105fb",
        },
        Decapsulation {
            seed: "cd56ee974773fe5a4adb6091ab34cb0a1fa11efc19066db6950224dea0855811f23cd18b2b9932109b0612dc9cf5330d97d582defea8b542e0ad3ea0c84597be",
            m: "c2705787f88c828f1cfed4c413e074f6e797dd53434b6970c6410f8a671d01af",
            digest: "2fd24c54d9d4f472c99cd82bdef97fbdf85c4c426c07b37672f9eaa011b2d7fb",
            shared: "33f8d1e197f3e8deef642ddfc0d05506444daa9ce1985a730c4cde8989b991b3",
            answer: "92a40c99139b3047558af267c1ac4e7befb335a136226aff778b2eb1d190a9b7",
        },
    ]
}
